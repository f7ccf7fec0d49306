ghost use Rattle.std.specs.Prelude.{◌≡◌, true};
ghost use Rattle.queue.specs.Waiting.{waiting};
ghost use Rattle.bench.specs.Wholeness.{all_datagrams};

use filters::store::Filters;
use queue::queue::Queue;

pub mod calls;
pub mod host;
pub mod lawful;
mod serve;

// A host to rehearse on: 32 filters, 16,384 bytes that wait, and no memory beside itself.
// No `impl Model`: a Copy type has none that forgets what stands where no value does.
#[derive(Clone, Copy)]
pub struct Bench {
    filters: Filters,
    queue: Queue,
    ghost whole: { all_datagrams (waiting queue) ≡ true },
}
