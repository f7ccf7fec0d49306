ghost use Rattle.std.specs.Prelude.{◌≡◌, ℕ, ◌<◌, ◌≤◌, true, false, not, [], map, length, find, slice_get};
ghost use Rattle.std.specs.List.{range_with_len};
ghost use Rattle.std.specs.Option.{option_map};
ghost use Rattle.requests.specs.Asks.{key_of};
ghost use Rattle.requests.specs.Handles.{bits_of};
ghost use Rattle.hosts.specs.Rules.{without};
ghost use Rattle.keyed.specs.Rows.{found};
ghost use Rattle.filters.specs.Rows.{meaning};
ghost use Rattle.filters.specs.Keys.{taken, is_bpf, bpf_of, lowest_free, refusal_of, admitted, added, renaming, after_renaming, removing, with_handle};
ghost use Rattle.filters.specs.Held.{held};

use crate::refusal::Refusal;
use crate::row::Row;
use crate::store::Filters;
use keyed::row::Keyed;
use keyed::table::{Refused, Table};
use requests::handle::TcHandle;
use requests::name::Name;
use requests::request::Key;

impl From<Refused> for Refusal {
    ghost from_gives = { λ r s. s ≡ refusal_of r };

    fn from(refused: Refused) -> Refusal {
        match refused {
            Refused::Taken => Refusal::Exists,
            Refused::Full => Refusal::NoSpace,
        }
    }
}

impl Filters {
    pub fn new() -> Filters
        ensures { held result ≡ [] }
    {
        Filters {
            table: Table::new(Row::blank()),
        }
    }

    pub fn len(&self) -> usize
        ensures { result ≡ length (held self.now) }
    {
        self.table.len()
    }

    // The filters that stand, in order.
    pub fn rows(&self) -> &[Row]
        ensures { map meaning result.now ≡ held self.now }
    {
        self.table.as_slice()
    }

    // The filter at a place, or none behind the last.
    pub fn get(&self, i: usize) -> Option<Row>
        ensures { option_map meaning result ≡ slice_get (held self.now) i }
    {
        self.table.get(i)
    }

    // Whether a filter has this key.
    pub fn has(&self, key: Key) -> bool
        ensures { result ≡ taken (key_of key) (held self.now) }
    {
        self.table.has(key)
    }

    // Whether a filter has this key, and is a bpf filter.
    pub fn has_bpf(&self, key: Key) -> bool
        ensures { result ≡ is_bpf (key_of key) (held self.now) }
    {
        self.bpf(key).is_some()
    }

    // The row of this key, if there is one. It is lent: `Table::find` copies it out, and a row is large.
    fn row(&self, key: Key) -> Option<&Row>
        ensures { option_map (λ r. meaning r.now) result ≡ found (λ f. f.key) (key_of key) (held self.now) }
    {
        self.rows().iter().find(|row| row.has_key(key))
    }

    // That row, if it is a bpf filter's.
    fn bpf(&self, key: Key) -> Option<&Row>
        ensures { option_map (λ r. meaning r.now) result ≡ bpf_of (key_of key) (held self.now) }
    {
        self.row(key).filter(|row| row.is_bpf())
    }

    // Whether one more may stand under this key.
    pub fn admits(&self, key: Key) -> Result<(), Refusal>
        ensures { result ≡ admitted (key_of key) (held self.now) }
    {
        self.table.admits(key)?;
        Ok(())
    }

    // The lowest handle from 1 on that is free with the other parts of this key.
    pub fn lowest_free_handle(&self, key: Key) -> TcHandle
        ensures value { bits_of result ≡ lowest_free (key_of key) (held self.now) }
        ensures free { taken (with_handle (key_of key) (bits_of result)) (held self.now) ≡ false }
        ensures lowest { (h : ℕ) → 1 ≤ h → h < bits_of result → taken (with_handle (key_of key) h) (held self.now) ≡ true }
    {
        TcHandle::of_bits(self.first_free(key).unwrap_or(33))
    }

    // The bits of the first handle of 1 to 32 that is free with the other parts of this key.
    fn first_free(&self, key: Key) -> Option<u32>
        ensures { result ≡ find (λ h. not (taken (with_handle (key_of key) h) (held self.now))) (range_with_len 1 32) }
    {
        (1u32..33).find(|&bits| {
            let handle = TcHandle::of_bits(bits);
            !self.has(Key { handle, ..key })
        })
    }

    // Puts one more at the end, if it may stand there.
    pub fn add(&mut self, row: Row) -> Result<(), Refusal>
        ensures answer { result ≡ admitted (meaning row).key (held self.old) }
        ensures after { held self.new ≡ added result (meaning row) (held self.old) }
    {
        self.table.push(row)?;
        Ok(())
    }

    // Gives the bpf filter of this key another name.
    // Key and name apart: the key says which filter, the name is what it gets. A `Row` is what both make.
    pub fn rename(&mut self, key: Key, name: &[u8]) -> Result<(), Refusal>
        ensures answer { result ≡ renaming (key_of key) name.now (held self.old) }
        ensures after { held self.new ≡ after_renaming result (key_of key) name.now (held self.old) }
    {
        let name = Name::new(name).map_err(|_| Refusal::Invalid)?;
        let row = self.bpf(key).ok_or(Refusal::NoEntry)?;
        let named = row.renamed(name).unwrap();
        self.table.replace(named);
        Ok(())
    }

    // Takes the filter of this key off, and keeps the order of the others.
    pub fn remove(&mut self, key: Key) -> Result<(), Refusal>
        ensures answer { result ≡ removing (key_of key) (held self.old) }
        ensures after { held self.new ≡ without (key_of key) (held self.old) }
    {
        self.table.remove(key).ok_or(Refusal::NoEntry)?;
        Ok(())
    }
}
