ghost use Rattle.std.specs.Prelude.{◌≡◌, ℕ, [], map, length, slice_get};
ghost use Rattle.std.specs.Option.{option_map};
ghost use Rattle.requests.specs.Asks.{key_of};
ghost use Rattle.hosts.specs.Rules.{same_key};
ghost use Rattle.keyed.specs.Keyed.{taken, without, altered};
ghost use Rattle.capped.specs.Values.{values};
ghost use Rattle.keyed.specs.Rows.{stored, place, found, admitted, added};

use super::{Refused, Table};
use crate::row::Keyed;
use capped::list::Capped;
use requests::request::Key;

impl<R: Keyed, const N: usize> Table<R, N> {
    // An empty table; `blank` stands where no row does.
    pub fn new(blank: R) -> Table<R, N>
        ensures { stored result ≡ [] }
    {
        Table {
            rows: Capped::new(blank),
        }
    }

    pub fn len(&self) -> usize
        ensures { result ≡ length (stored self.now) }
    {
        self.rows.len()
    }

    pub fn as_slice(&self) -> &[R]
        ensures { map R.means result.now ≡ stored self.now }
    {
        self.rows.as_slice()
    }

    // The row at a place, or none behind the last.
    pub fn get(&self, place: usize) -> Option<R>
        ensures { option_map R.means result ≡ slice_get (stored self.now) place }
    {
        self.rows.get(place)
    }

    // The place of the row with this key.
    fn place(&self, key: Key) -> Option<usize>
        ensures { result ≡ place (λ r. R.key_in (R.means r)) (key_of key) (values self.now.rows) }
    {
        self.rows.as_slice().iter().position(|row| row.has_key(key))
    }

    // Whether a row has this key.
    pub fn has(&self, key: Key) -> bool
        ensures { result ≡ taken R.key_in (key_of key) (stored self.now) }
    {
        self.place(key).is_some()
    }

    // The row with this key, if there is one.
    pub fn find(&self, key: Key) -> Option<R>
        ensures { option_map R.means result ≡ found R.key_in (key_of key) (stored self.now) }
    {
        self.rows.get(self.place(key)?)
    }

    // Whether one more may stand under this key.
    pub fn admits(&self, key: Key) -> Result<(), Refused>
        ensures { result ≡ admitted R.key_in N (key_of key) (stored self.now) }
    {
        if self.has(key) {
            return Err(Refused::Taken);
        }
        if self.len() >= N {
            return Err(Refused::Full);
        }
        Ok(())
    }

    // Puts one more last, unless its key is taken or there is no room.
    pub fn push(&mut self, row: R) -> Result<(), Refused>
        ensures answer { result ≡ admitted R.key_in N (R.key_in (R.means row)) (stored self.old) }
        ensures after { stored self.new ≡ added result (R.means row) (stored self.old) }
    {
        self.admits(row.key())?;
        self.rows.push(row).map_err(|_| Refused::Full)
    }

    // Puts a row in the place of the one with its key, which it answers; where there is none, nothing is altered.
    pub fn replace(&mut self, row: R) -> Option<R>
        ensures answer { option_map R.means result ≡ found R.key_in (R.key_in (R.means row)) (stored self.old) }
        ensures after { stored self.new ≡ map (altered R.key_in (R.key_in (R.means row)) (λ _. R.means row)) (stored self.old) }
    {
        let place = self.place(row.key())?;
        self.rows.replace(place, row)
    }

    // Takes the row with this key out, and answers it; the others keep their order.
    pub fn remove(&mut self, key: Key) -> Option<R>
        ensures answer { option_map R.means result ≡ found R.key_in (key_of key) (stored self.old) }
        ensures after { stored self.new ≡ without R.key_in (key_of key) (stored self.old) }
    {
        let place = self.place(key)?;
        self.rows.remove(place)
    }
}
