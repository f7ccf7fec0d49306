ghost use Rattle.std.specs.Prelude.{⊤, ◌≡◌, true, map};
ghost use Rattle.capped.specs.Values.{values};
ghost use Rattle.keyed.specs.Keyed.{distinct};

use crate::row::Keyed;
use capped::list::Capped;
use std::alloc::AllocError;

mod calls;

// At most N rows, in the order in which they came. Keys differ.
// No `impl Model`: a Copy type has none that forgets what stands where no value does.
pub struct Table<R: Keyed, const N: usize> {
    rows: Capped<R, N>,
    ghost differ: { distinct R.key_in (map R.means (values rows)) ≡ true },
}

// By hand: a derive is refused for a type with a parameter and a ghost field.
impl<R: Keyed, const N: usize> Clone for Table<R, N> {
    ghost is_clone = { λ x y. y ≡ x };

    ghost is_infallible = { λ _. ⊤ };

    fn clone(&self) -> Result<Table<R, N>, AllocError> {
        Ok(*self)
    }
}

impl<R: Keyed, const N: usize> Copy for Table<R, N> {}

// Why a row is not put into a table.
#[derive(Clone, Copy, PartialEq, Eq, Debug)]
pub enum Refused {
    // a row has its key
    Taken,
    // there is no room for one more
    Full,
}
