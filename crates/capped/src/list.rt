ghost use Rattle.std.specs.Prelude.{⊤, ◌≡◌, ◌≤◌, length};

use std::alloc::AllocError;

mod calls;

// A list of at most N values, which lie in it: no memory beside itself. The kit's `ArrayVec` is not Copy, and the
// queue and the tables of rows that stand on this list are.
// No `impl Model`: a Copy type has none that forgets what stands where no value does.
pub struct Capped<T, const N: usize> {
    cells: [T; N],
    len: usize,
    ghost within: { (len ≤ N) × (length cells ≡ N) },
}

// By hand: a derive is refused for a type with a parameter and a ghost field.
impl<T: Copy, const N: usize> Clone for Capped<T, N> {
    ghost is_clone = { λ x y. y ≡ x };

    ghost is_infallible = { λ _. ⊤ };

    fn clone(&self) -> Result<Capped<T, N>, AllocError> {
        Ok(*self)
    }
}

impl<T: Copy, const N: usize> Copy for Capped<T, N> {}

// What comes has no room.
#[derive(Clone, Copy, PartialEq, Eq, Debug)]
pub struct Full;
