ghost use Rattle.std.specs.Prelude.{◌≡◌, true, []};
ghost use Rattle.requests.specs.Asks.{key_of};
ghost use Rattle.requests.specs.FilterMessages.{filter_of};
ghost use Rattle.queue.specs.Waiting.{waiting};
ghost use Rattle.filters.specs.Held.{held};
ghost use Rattle.bench.specs.Wholeness.{all_datagrams};
ghost use Rattle.bench.specs.Serving.{prioritized, granted};
ghost use Rattle.bench.specs.Calls.{state, replying, Replied, given, with_given, mapped_ok};
ghost use Rattle.bench.specs.Benches.{state_of};

use crate::bench::Bench;
use filters::refusal::Refusal;
use filters::row::Row;
use filters::store::Filters;
use queue::queue::Queue;
use records::numbers::ENOBUFS;
use requests::filter::Filter;
use requests::handle::TcHandle;
use requests::request::Key;

// The priority that is given where none is asked for.
const PRIORITY: u16 = 49152;

// The key that is asked for, with a priority.
fn prioritize(wanted: Key) -> Key
    ensures { key_of result ≡ prioritized (key_of wanted) }
{
    match wanted.priority {
        0 => Key {
            priority: PRIORITY,
            ..wanted
        },
        _ => wanted,
    }
}

impl Bench {
    pub fn new() -> Bench
        ensures { state_of result ≡ state [] [] }
    {
        Bench {
            filters: Filters::new(),
            queue: Queue::new(),
        }
    }

    // The filters that stand.
    pub fn filters(&self) -> &Filters
        ensures { held result.now ≡ (state_of self.now).filters }
    {
        &self.filters
    }

    // The datagrams that wait.
    pub fn queue(&self) -> &Queue
        ensures { waiting result.now ≡ (state_of self.now).waiting }
    {
        &self.queue
    }

    // The key that an attach gets.
    pub(crate) fn grant(&self, wanted: Key) -> Key
        ensures { key_of result ≡ granted (key_of wanted) (held self.now.filters) }
    {
        let key = prioritize(wanted);
        if key.handle == TcHandle::AUTO_ASSIGN {
            let handle = self.filters.lowest_free_handle(key);
            Key { handle, ..key }
        } else {
            key
        }
    }

    // Puts a filter of any kind on the host, on the terms of an attach: a priority or handle of 0 is chosen. Answers its key, or why
    // it is refused.
    pub fn give(&mut self, wanted: Filter<'_>) -> Result<Key, Refusal>
        ensures answer { mapped_ok key_of result ≡ given (filter_of wanted.entry) (state_of self.old).filters }
        ensures after { state_of self.new ≡ state (with_given (filter_of wanted.entry) (state_of self.old).filters) (state_of self.old).waiting }
    {
        let key = self.grant(wanted.key);
        let row = Row::new(Filter { key, ..wanted }).ok_or(Refusal::Invalid)?;
        self.filters.add(row)?;
        Ok(key)
    }

    // Puts a reply behind what waits, whole, or refuses.
    pub(crate) fn reply(&mut self, reply: &Queue) -> Result<(), i32>
        requires { all_datagrams (waiting reply.now) ≡ true }
        ensures { Replied (replying (waiting reply.now) (state_of self.old).filters) (state_of self.old) result (state_of self.new) }
    {
        self.queue.append(reply).map_err(|_| ENOBUFS)
    }
}
