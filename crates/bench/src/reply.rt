ghost use Rattle.std.specs.Prelude.{◌≡◌, ℕ, ◌+◌, ◌≤◌, [], ◌∷◌, ◌++◌, length, take, drop};
ghost use Rattle.requests.specs.Handles.{bits_of};
ghost use Rattle.queue.specs.Cuts.{bulk, joined};
ghost use Rattle.queue.specs.Waiting.{waiting};
ghost use Rattle.filters.specs.Rows.{meaning};
ghost use Rattle.filters.specs.Held.{held};
ghost use Rattle.bench.specs.Replies.{told_bytes, answer_bytes, done_bytes};
ghost use Rattle.bench.specs.Serving.{listing, is_under};

use crate::sent::Sent;
use filters::row::Row;
use filters::store::Filters;
use keyed::row::Keyed;
use queue::queue::Queue;
use records::nlmsgerr::Nlmsgerr;
use records::nlmsghdr::Nlmsghdr;
use records::numbers::{NLM_F_CAPPED, NLM_F_MULTI, NLMSG_DONE, NLMSG_ERROR, SEQUENCE};
use records::record::{Record, write};
use requests::request::Hook;

// The header of a message that answers, of `len` bytes in all.
fn header(len: u32, kind: u16, flags: u16) -> Nlmsghdr
    ensures { result ≡ record { len = len; kind = kind; flags = flags; seq = 1; pid = 0 } }
{
    Nlmsghdr {
        len,
        kind,
        flags,
        seq: SEQUENCE,
        pid: 0,
    }
}

fn put<R: Record>(head: &R, out: &mut [u8], at: usize)
    requires { at + R.wide ≤ length out.old }
    ensures { out.new ≡ take at out.old ++ (R.bytes head.now ++ drop (at + R.wide) out.old) }
{
    write(head, out, at).unwrap();
}

// The 36 bytes of an answer to a request.
pub(crate) fn answer(request: Sent<'_>, status: i32) -> [u8; 36]
    ensures { result ≡ answer_bytes request.entry.bytes.now status }
{
    let mut out = [0u8; 36];
    let (asked, _) = Nlmsghdr::decode(request.bytes).unwrap();
    let error = Nlmsgerr {
        status,
        header: asked,
    };
    put(&header(36, NLMSG_ERROR, NLM_F_CAPPED), &mut out, 0);
    put(&error, &mut out, 16);
    out
}

// The 20 bytes of the end of a listing, with status 0.
fn done() -> [u8; 20]
    ensures { result ≡ done_bytes }
{
    let mut out = [0u8; 20];
    put(&header(20, NLMSG_DONE, NLM_F_MULTI), &mut out, 0);
    out
}

// Puts a message behind what waits, in a datagram of its own.
pub(crate) fn put_alone(reply: &mut Queue, message: &[u8])
    requires { (16 ≤ length message.now) × ((length message.now ≤ 384) × (bulk (waiting reply.old) ≤ 16000)) }
    ensures { waiting reply.new ≡ waiting reply.old ++ (message.now ∷ []) }
{
    reply.push(message).unwrap();
}

// Puts the message of a filter behind what waits, into the last datagram if it has room.
pub(crate) fn put_row(reply: &mut Queue, row: &Row, flags: u16)
    requires { bulk (waiting reply.old) ≤ 16000 }
    ensures { waiting reply.new ≡ joined (waiting reply.old) (told_bytes flags (meaning row.now)) }
{
    let mut out = [0u8; 324];
    let n = row.filter().write(flags, &mut out).unwrap();
    reply.join(&out[..n]).unwrap();
}

// The reply to a listing: the filters that hang there, in order, and the end.
pub(crate) fn list(filters: &Filters, hook: Hook) -> Queue
    ensures { waiting result ≡ listing hook.interface (bits_of hook.parent) (held filters.now) }
{
    let mut reply = Queue::new();
    for row in filters.rows() {
        if is_under(row, hook) {
            put_row(&mut reply, row, NLM_F_MULTI);
        }
    }
    put_alone(&mut reply, &done());
    reply
}

// Whether a filter hangs there.
fn is_under(row: &Row, hook: Hook) -> bool
    ensures { result ≡ is_under hook.interface (bits_of hook.parent) (meaning row.now) }
{
    row.key().hook() == hook
}
