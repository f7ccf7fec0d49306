ghost use Rattle.std.specs.Prelude.{◌≡◌, ◌==◌};
ghost use Rattle.hosts.specs.Losing.{Passed, countdown};
ghost use Rattle.hosts.specs.Losses.{passed_rule};

use crate::host::Host;
use records::numbers::{ENOBUFS, LONGEST_DATAGRAM};

// A host that loses a datagram of the host below: its receive fails once, `left` receives from now, and 0 means never.
// A plain number: it runs down by `saturating_sub`, where an Option of a NonZero would ask every caller to make one.
#[derive(Drop)]
pub struct Loss<H> {
    pub inner: H,
    pub left: u32,
}

impl<H: Host> Host for Loss<H> {
    ghost lawful = { H.Host.lawful };

    ghost filters = { λ s. H.Host.filters s.inner };

    ghost waiting = { λ s. H.Host.waiting s.inner };

    ghost did = { λ s e t. Passed H.Host.did (s.left == 1) s.inner e t.inner × (t.left ≡ countdown s.left e) };

    ghost meant = { λ l h. H.Host.meant l h.inner };

    ghost rules = { λ l h e k s.
        let m = H.Host in
        passed_rule m.did m.filters m.waiting (H.Host.rules l) (h.left == 1) h.inner e k.inner s.0 };

    fn open(&mut self) -> Result<(), i32> {
        self.inner.open()
    }

    fn send(&mut self, request: &[u8]) -> Result<(), i32> {
        self.inner.send(request)
    }

    fn receive(&mut self, buffer: &mut [u8]) -> Result<usize, i32> {
        let left = self.left;
        self.left = left.saturating_sub(1);
        if left != 1 {
            return self.inner.receive(buffer);
        }
        let mut lost = [0u8; LONGEST_DATAGRAM];
        let _ = self.inner.receive(&mut lost);
        Err(ENOBUFS)
    }
}
