ghost use Rattle.std.specs.Prelude.{◌≡◌, ◌≤◌, ◌∷◌, length, Some, None};
ghost use Rattle.requests.specs.Asks.{key_of, asks};
ghost use Rattle.requests.specs.Back.{Writes};
ghost use Rattle.requests.specs.Handles.{bits_of};
ghost use Rattle.requests.specs.FilterMessages.{filter_fault};
ghost use Rattle.requests.specs.Refusals.{name_fault};
ghost use Rattle.hosts.specs.Meaning.{bpf};
ghost use Rattle.hosts.specs.Rules.{without};
ghost use Rattle.filters.specs.Rows.{meaning};
ghost use Rattle.filters.specs.Keys.{admitted, renaming, removing};
ghost use Rattle.bench.specs.Serving.{answered, echoed, granted, named, attaching, replacing, status_of, listing, served};
ghost use Rattle.bench.specs.Calls.{Replied, replying};
ghost use Rattle.bench.specs.Benches.{state_of};

use crate::bench::Bench;
use crate::reply::{answer, list, put_alone, put_row};
use crate::sent::Sent;
use filters::refusal::Refusal;
use filters::row::Row;
use queue::queue::Queue;
use records::numbers::{REQUEST_ACK_ECHO, REQUEST_ACK_ECHO_EXCL_CREATE};
use requests::request::{Hook, Key, Request};

// The status of an outcome: 0 acknowledges. No `map_or`: one match says both.
fn status_of(outcome: Result<(), Refusal>) -> i32
    ensures { result ≡ status_of outcome }
{
    match outcome {
        Ok(()) => 0,
        Err(refusal) => refusal.status(),
    }
}

impl Bench {
    // Acknowledges a request, or refuses it.
    pub(crate) fn answer(
        &mut self,
        request: Sent<'_>,
        outcome: Result<(), Refusal>,
    ) -> Result<(), i32>
        ensures { Replied (answered request.entry.bytes.now (status_of outcome) (state_of self.old).filters) (state_of self.old) result (state_of self.new) }
    {
        let mut reply = Queue::new();
        put_alone(&mut reply, &answer(request, status_of(outcome)));
        self.reply(&reply)
    }

    // Echoes a filter, and acknowledges the request.
    fn echo(&mut self, request: Sent<'_>, row: &Row, flags: u16) -> Result<(), i32>
        ensures { Replied (echoed flags (meaning row.now) request.entry.bytes.now (state_of self.old).filters) (state_of self.old) result (state_of self.new) }
    {
        let mut reply = Queue::new();
        put_row(&mut reply, row, flags);
        put_alone(&mut reply, &answer(request, 0));
        self.reply(&reply)
    }

    // Lists the filters under a parent.
    pub(crate) fn list(&mut self, hook: Hook) -> Result<(), i32>
        ensures { Replied (replying (listing hook.interface (bits_of hook.parent) (state_of self.old).filters) (state_of self.old).filters) (state_of self.old) result (state_of self.new) }
    {
        let reply = list(&self.filters, hook);
        self.reply(&reply)
    }

    // Takes off the filter of a key.
    pub(crate) fn remove(&mut self, request: Sent<'_>, key: Key) -> Result<(), i32>
        ensures { Replied (answered request.entry.bytes.now (status_of (removing (key_of key) (state_of self.old).filters)) (without (key_of key) (state_of self.old).filters)) (state_of self.old) result (state_of self.new) }
    {
        // Asked first: the filter goes only behind an answer that was given.
        let outcome = if self.filters.has(key) {
            Ok(())
        } else {
            Err(Refusal::NoEntry)
        };
        self.answer(request, outcome)?;
        let _ = self.filters.remove(key);
        Ok(())
    }
}

impl Bench {
    // Adds a bpf filter.
    pub(crate) fn attach(&mut self, request: Sent<'_>, wanted: Key, name: &[u8]) -> Result<(), i32>
        requires { filter_fault (key_of wanted) bpf (Some name.now) ≡ None }
        ensures { Replied (attaching (admitted (granted (key_of wanted) (state_of self.old).filters) (state_of self.old).filters) (named (granted (key_of wanted) (state_of self.old).filters) name.now) request.entry.bytes.now (state_of self.old).filters) (state_of self.old) result (state_of self.new) }
    {
        let key = self.grant(wanted);
        let row = Row::bpf(key, name).unwrap();
        if let Err(refusal) = self.filters.admits(key) {
            return self.answer(request, Err(refusal));
        }
        self.echo(request, &row, REQUEST_ACK_ECHO_EXCL_CREATE)?;
        let _ = self.filters.add(row);
        Ok(())
    }

    // Renames a bpf filter.
    pub(crate) fn replace(&mut self, request: Sent<'_>, key: Key, name: &[u8]) -> Result<(), i32>
        requires { name_fault name.now ≡ None }
        ensures { Replied (replacing (renaming (key_of key) name.now (state_of self.old).filters) (key_of key) name.now request.entry.bytes.now (state_of self.old).filters) (state_of self.old) result (state_of self.new) }
    {
        if !self.filters.has_bpf(key) {
            return self.answer(request, Err(Refusal::NoEntry));
        }
        let row = Row::bpf(key, name).unwrap();
        self.echo(request, &row, REQUEST_ACK_ECHO)?;
        let _ = self.filters.rename(key, name);
        Ok(())
    }
}

impl Bench {
    // Does what a request asks for.
    pub(crate) fn serve(&mut self, request: &[u8], asked: Request<'_>) -> Result<(), i32>
        requires { Writes (asks asked) request.now }
        ensures { Replied (served (state_of self.old).filters request.now (asks asked.entry)) (state_of self.old) result (state_of self.new) }
    {
        let request = Sent { bytes: request };
        match asked {
            Request::SetXdp(_) | Request::AddClsact { .. } => self.answer(request, Ok(())),
            Request::Attach(key, program) => self.attach(request, key, program.name),
            Request::Replace(key, program) => self.replace(request, key, program.name),
            Request::Remove(key) => self.remove(request, key),
            Request::List(hook) => self.list(hook),
        }
    }
}
