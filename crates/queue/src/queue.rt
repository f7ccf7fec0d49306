ghost use Rattle.std.specs.Prelude.{◌≡◌, ℕ, ◌<◌, length, slice_index};
ghost use Rattle.capped.specs.Values.{values};
ghost use Rattle.queue.specs.Cuts.{total, Sized};

use capped::list::Capped;

mod calls;

// Datagrams that wait, one after the other from the front of bytes; lens has their lengths. Each has 16 bytes or
// more, so that there are never more than 1,024. Their lengths lie in a list beside the bytes: datagrams of any length
// share this memory, which is fixed and has no heap.
// No `impl Model`: a Copy type has none that forgets what stands where no value does.
#[derive(Clone, Copy)]
pub struct Queue {
    bytes: Capped<u8, 16384>,
    lens: Capped<u16, 1024>,
    ghost sum: { length (values bytes) ≡ total (values lens) },
    ghost each: { (k : ℕ) → k < length (values lens) → Sized (slice_index (values lens) k) },
}
