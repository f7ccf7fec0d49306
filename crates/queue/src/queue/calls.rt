ghost use Rattle.std.specs.Prelude.{◌≡◌, ◌+◌, ◌-◌, ◌<◌, ◌≤◌, ◌&&◌, [], ◌∷◌, ◌++◌, drop, length, if◌then◌else◌, set, nat_le, nat_lt};
ghost use Rattle.capped.specs.Values.{values, room};
ghost use Rattle.queue.specs.Cuts.{last_length, bulk, takes, joined, fitting, behind, fronted};
ghost use Rattle.queue.specs.Waiting.{waiting};

use super::Queue;
use capped::list::{Capped, Full};

// Not the protocol's own constants: a queue of datagrams stands on no crate of the protocol.
const LEAST: usize = 16;

const LONGEST: usize = 4096;

// Whether a datagram may have so many bytes.
fn is_sized(len: usize) -> bool
    ensures { result ≡ (nat_le 16 len && nat_le len 4096) }
{
    (LEAST..=LONGEST).contains(&len)
}

// Adds to the last length, by its place: a capped list lends no value of its own to be written.
fn lengthen(lens: &mut Capped<u16, 1024>, more: u16)
    requires { let ns = values lens.old in (0 < length ns) × (last_length ns + more ≤ 4096) }
    ensures { let ns = values lens.old in values lens.new ≡ set ns (length ns - 1) (last_length ns + more) }
{
    let place = lens.len() - 1;
    let last = lens.as_slice()[place];
    lens.replace(place, last + more);
}

impl Queue {
    pub fn new() -> Queue
        ensures { waiting result ≡ [] }
    {
        Queue {
            bytes: Capped::new(0),
            lens: Capped::new(0),
        }
    }

    pub fn clear(&mut self)
        ensures { waiting self.new ≡ [] }
    {
        self.bytes.clear();
        self.lens.clear();
    }

    // Puts a datagram of 16 to 4,096 bytes last; one of another length has no room either. Then nothing is altered.
    pub fn push(&mut self, datagram: &[u8]) -> Result<(), Full>
        ensures answer { result ≡ room (takes (waiting self.old) datagram.now) }
        ensures after { waiting self.new ≡ (if takes (waiting self.old) datagram.now then waiting self.old ++ datagram.now ∷ [] else waiting self.old) }
    {
        if !is_sized(datagram.len()) {
            return Err(Full);
        }
        self.bytes.extend(datagram)?;
        self.lens.push(datagram.len() as u16)
    }

    // Lays a message behind the last datagram if that stays within 4,096 bytes, else puts it last as a new one. What push
    // refuses is refused here too.
    pub fn join(&mut self, message: &[u8]) -> Result<(), Full>
        ensures answer { result ≡ room (takes (waiting self.old) message.now) }
        ensures after { waiting self.new ≡ (if takes (waiting self.old) message.now then joined (waiting self.old) message.now else waiting self.old) }
    {
        if !self.may_grow(message.len()) {
            return self.push(message);
        }
        self.bytes.extend(message)?;
        lengthen(&mut self.lens, message.len() as u16);
        Ok(())
    }

    // Puts all the datagrams of another queue last, in their order, or none where they have no room.
    pub fn append(&mut self, other: &Queue) -> Result<(), Full>
        ensures answer { result ≡ room (nat_le (bulk (waiting self.old) + bulk (waiting other.now)) 16384) }
        ensures after { waiting self.new ≡ (if nat_le (bulk (waiting self.old) + bulk (waiting other.now)) 16384 then waiting self.old ++ waiting other.now else waiting self.old) }
    {
        self.bytes.extend(other.bytes.as_slice())?;
        self.lens.extend(other.lens.as_slice())
    }

    // Takes the first datagram off and lays it over the front of out. Where none waits, or it does not fit, nothing is
    // altered.
    pub fn pop_into(&mut self, out: &mut [u8]) -> Option<usize>
        ensures answer { result ≡ fitting (length out.old) (waiting self.old) }
        ensures after { waiting self.new ≡ behind (length out.old) (waiting self.old) }
        ensures out { out.new ≡ fronted (waiting self.old) out.old }
    {
        let len = usize::from(self.lens.get(0)?);
        if out.len() < len {
            return None;
        }
        out[..len].copy_from_slice(&self.bytes.as_slice()[..len]);
        self.bytes.drop_front(len);
        self.lens.drop_front(1);
        Some(len)
    }

    // Whether a message of so many bytes goes behind the last datagram.
    fn may_grow(&self, len: usize) -> bool
        ensures { let ns = values self.now.lens in result ≡ ((nat_le 16 len && nat_le len 4096) && (nat_lt 0 (length ns) && nat_le (last_length ns + len) 4096)) }
    {
        is_sized(len) && self.last_takes(len)
    }

    // Whether the last datagram, if there is one, may have so many bytes more.
    fn last_takes(&self, len: usize) -> bool
        requires { len ≤ 4096 }
        ensures { let ns = values self.now.lens in result ≡ (nat_lt 0 (length ns) && nat_le (last_length ns + len) 4096) }
    {
        self.lens
            .as_slice()
            .last()
            .is_some_and(|last| usize::from(*last) + len <= LONGEST)
    }
}
