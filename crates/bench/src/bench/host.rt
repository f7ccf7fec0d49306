ghost use Rattle.bench.specs.Calls.{Calls};
ghost use Rattle.bench.specs.Benches.{state_of};
ghost use Rattle.queue.specs.Waiting;
ghost use Rattle.filters.specs.Held.{held};
ghost use Rattle.filters.proofs.Finding.{held_stand};
ghost use Rattle.bench.specs.Ruling;

use crate::bench::Bench;
use hosts::host::Host;
use records::numbers::{EAGAIN, EINVAL, LONGEST_DATAGRAM};
use requests::request::Request;

impl Host for Bench {
    ghost lawful = { Unit {0} };

    ghost filters = { λ b. (state_of b).filters };

    ghost waiting = { λ b. (state_of b).waiting };

    ghost did = { λ b e c. Calls (state_of b) e (state_of c) };

    ghost meant = { λ l h. Ruling.meant (held h.filters) (Waiting.waiting h.queue) (held_stand h.filters) h.filters.table.differ h.whole };

    ghost rules = { λ l h e k d. Ruling.rules (state_of h) (state_of k) e (held_stand h.filters) d };

    fn open(&mut self) -> Result<(), i32> {
        self.queue.clear();
        Ok(())
    }

    fn send(&mut self, request: &[u8]) -> Result<(), i32> {
        let asked = Request::read(request).ok_or(EINVAL)?;
        self.serve(request, asked)
    }

    fn receive(&mut self, buffer: &mut [u8]) -> Result<usize, i32> {
        if buffer.len() < LONGEST_DATAGRAM {
            return Err(EINVAL);
        }
        self.queue.pop_into(buffer).ok_or(EAGAIN)
    }
}
