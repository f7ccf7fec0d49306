ghost use Rattle.std.specs.Prelude.{◌≡◌, ℕ, ◌+◌, ◌≤◌, ◌<◌, [], ◌∷◌, ◌++◌, length, take, drop, if◌then◌else◌, nat_lt, nat_le, slice_get, slice_set};
ghost use Rattle.std.specs.List.{remove};
ghost use Rattle.capped.specs.Values.{values, within};

use super::{Capped, Full};

impl<T: Copy, const N: usize> Capped<T, N> {
    // An empty list; `blank` stands where no value does.
    pub fn new(blank: T) -> Capped<T, N>
        ensures { values result ≡ [] }
    {
        Capped {
            cells: [blank; N],
            len: 0,
        }
    }

    pub fn len(&self) -> usize
        ensures { result ≡ length (values self.now) }
    {
        self.len
    }

    pub fn as_slice(&self) -> &[T]
        ensures { result.now ≡ values self.now }
    {
        &self.cells[..self.len]
    }

    pub fn clear(&mut self)
        ensures { values self.new ≡ [] }
    {
        self.len = 0;
    }

    // Puts one more last.
    pub fn push(&mut self, value: T) -> Result<(), Full>
        ensures answer { result ≡ within N (length (values self.old) + 1) }
        ensures after { values self.new ≡ (if nat_lt (length (values self.old)) N then values self.old ++ value ∷ [] else values self.old) }
    {
        if self.len == N {
            return Err(Full);
        }
        self.cells[self.len] = value;
        self.len += 1;
        Ok(())
    }

    // Puts these last, all of them or none.
    pub fn extend(&mut self, more: &[T]) -> Result<(), Full>
        ensures answer { result ≡ within N (length (values self.old) + length more.now) }
        ensures after { values self.new ≡ (if nat_le (length (values self.old) + length more.now) N then values self.old ++ more.now else values self.old) }
    {
        if N - self.len < more.len() {
            return Err(Full);
        }
        let end = self.len + more.len();
        let cells = &mut self.cells[..];
        cells[self.len..end].copy_from_slice(more);
        self.len = end;
        Ok(())
    }

    // The value at a place, or none behind the last.
    pub fn get(&self, place: usize) -> Option<T>
        ensures { result ≡ slice_get (values self.now) place }
    {
        self.as_slice().get(place).copied()
    }

    // Puts a value in the place of another, which it answers; behind the last, nothing is altered.
    pub fn replace(&mut self, place: usize, value: T) -> Option<T>
        ensures answer { result ≡ slice_get (values self.old) place }
        ensures after { values self.new ≡ slice_set (values self.old) place value }
    {
        let old = self.get(place)?;
        self.cells[place] = value;
        Some(old)
    }

    // Takes a value out, which it answers, and keeps the order of the others; behind the last, nothing is altered.
    pub fn remove(&mut self, place: usize) -> Option<T>
        ensures answer { result ≡ slice_get (values self.old) place }
        ensures after { values self.new ≡ remove (values self.old) place }
    {
        let old = self.get(place)?;
        let cells = &mut self.cells[..];
        cells[place..self.len].rotate_left(1);
        self.len -= 1;
        Some(old)
    }

    // Takes the first n out, or all where there are fewer.
    pub fn drop_front(&mut self, n: usize)
        ensures { values self.new ≡ drop n (values self.old) }
    {
        if self.len <= n {
            return self.clear();
        }
        let cells = &mut self.cells[..];
        cells.rotate_left(n);
        self.len -= n;
    }
}
