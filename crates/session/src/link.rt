ghost use Rattle.std.specs.Prelude.{◌≡◌, ◌≤◌, true};
ghost use Rattle.requests.specs.Asks.{key_of};

use requests::request::Key;

pub mod make;

// A filter that is the session's own: its key, and the descriptor of the program that was last confirmed for it.
// No `impl Model`: to be Copy it would have to make the two handles again from their bits, and nothing else would be plainer.
#[derive(Clone, Copy)]
pub struct Link {
    key: Key,
    descriptor: u32,
    ghost numbered: { (1 ≤ (key_of key).priority) × (1 ≤ (key_of key).handle) },
}
