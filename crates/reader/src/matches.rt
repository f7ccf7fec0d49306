ghost use Rattle.std.specs.Prelude.{Some};
ghost use Rattle.reader.specs.Matches.{match_text};

use capped::list::Capped;
use std::fmt;

mod table;

// A filter by its priority and its handle.
#[derive(Clone, Copy, PartialEq, Eq, Debug)]
pub struct Match {
    pub priority: u16,
    pub handle: u32,
}

// The handle in its two halves; the type that prints handles stands in requests, and not below.
impl fmt::Display for Match {
    ghost output = { λ m. Some (match_text m) };

    fn fmt<W: fmt::Write>(&self, f: &mut fmt::Formatter<W>) -> fmt::Result {
        let Match { priority, handle } = *self;
        let (major, minor) = (handle >> 16, handle & 0xffff);
        write!(f, "priority {priority}, handle {major:x}:{minor:x}")
    }
}

// Up to 64 matches, in the order in which they came.
// No `impl Model`: a Copy type has none that forgets what stands where no value does.
#[derive(Clone, Copy)]
pub struct MatchTable {
    rows: Capped<Match, 64>,
}
