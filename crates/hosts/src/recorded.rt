ghost use Rattle.std.specs.Prelude.{◌≡◌, [], map, if◌then◌else◌, is_ok, vec_items};
ghost use Rattle.hosts.specs.Recording.{Plays, unplayed, kept, part_of};

use crate::host::Host;
use records::numbers::{EAGAIN, EINVAL, ENOMEM};
use std::alloc::AllocError;
use std::collections::VecDeque;
use std::marker::Model;

// Where a part is refused, with this errno.
#[derive(Clone, Copy, PartialEq, Eq, Debug)]
pub enum Refusal {
    Open(i32),
    Send(i32),
}

// What happens from one open to the next: what each receive is given in turn, a datagram or an errno, or where it is refused.
pub type Part = Result<Vec<Result<Vec<u8>, i32>>, Refusal>;

// An end that plays a recording, whatever is asked, and keeps what was sent. It claims none of the rules.
#[derive(Drop)]
pub struct Recorded {
    exchanges: VecDeque<Part>,
    given: VecDeque<Result<Vec<u8>, i32>>,
    refusal: Option<i32>,
    requests: Vec<Vec<u8>>,
}

impl Model for Recorded {
    ghost use Rattle.std.specs.Prelude.{map, vec_items};
    ghost use Rattle.hosts.specs.Recording.{Recording, part_of, got_of};

    ghost Value = { Recording };

    ghost view = { λ r. record {
      exchanges = map part_of r.exchanges.items;
      given = map got_of r.given.items;
      refusal = r.refusal;
      requests = map vec_items r.requests.items;
    } };
}

impl Recorded {
    pub fn new(exchanges: Vec<Part>) -> Recorded
        ensures { result ≡ unplayed (map part_of exchanges.items) }
    {
        let heap = *exchanges.allocator();
        Recorded {
            exchanges: VecDeque::from_vec(exchanges),
            given: VecDeque::new(heap),
            refusal: None,
            requests: Vec::new(heap),
        }
    }

    // What was sent, in order.
    pub fn requests(&self) -> &[Vec<u8>]
        ensures { map vec_items result.now ≡ self.now.requests }
    {
        self.requests.as_slice()
    }

    // Keeps a request.
    fn keep(&mut self, request: &[u8]) -> Result<(), AllocError>
        ensures { self.new ≡ (if is_ok result then kept request.now self.old else self.old) }
    {
        let bytes = Vec::from_slice(*self.requests.allocator(), request)?;
        self.requests.push(bytes)?;
        Ok(())
    }
}

impl Host for Recorded {
    ghost lawful = { ⊥ };

    ghost filters = { λ _. [] };

    ghost waiting = { λ _. [] };

    ghost did = { Plays };

    ghost meant = { λ l h. absurd l };

    ghost rules = { λ l h e k s. absurd l };

    fn open(&mut self) -> Result<(), i32> {
        self.given.clear();
        self.refusal = None;
        match self.exchanges.pop_front() {
            Some(Ok(given)) => self.given = VecDeque::from_vec(given),
            Some(Err(Refusal::Open(errno))) => return Err(errno),
            Some(Err(Refusal::Send(errno))) => self.refusal = Some(errno),
            None => {}
        }
        Ok(())
    }

    fn send(&mut self, request: &[u8]) -> Result<(), i32> {
        self.keep(request).map_err(|_| ENOMEM)?;
        self.refusal.map_or(Ok(()), Err)
    }

    fn receive(&mut self, buffer: &mut [u8]) -> Result<usize, i32> {
        if matches!(self.given.front(), Some(Ok(bytes)) if buffer.len() < bytes.len()) {
            return Err(EINVAL);
        }
        let bytes = self.given.pop_front().unwrap_or(Err(EAGAIN))?;
        buffer[..bytes.len()].copy_from_slice(&bytes);
        Ok(bytes.len())
    }
}
