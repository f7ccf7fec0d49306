ghost use Rattle.std.specs.Prelude.{◌≡◌, [], length, slice_get};
ghost use Rattle.reader.specs.Replies.{said, kept};
ghost use Rattle.reader.specs.Matches.{matches_of, pushed};

use super::{Match, MatchTable};
use crate::fault::TurnFault;
use capped::list::Capped;

const BLANK: Match = Match {
    priority: 0,
    handle: 0,
};

impl MatchTable {
    pub fn empty() -> MatchTable
        ensures { matches_of result ≡ [] }
    {
        MatchTable {
            rows: Capped::new(BLANK),
        }
    }

    pub fn len(&self) -> usize
        ensures { result ≡ length (matches_of self.now) }
    {
        self.rows.len()
    }

    // The matches, in the order in which they came.
    pub fn as_slice(&self) -> &[Match]
        ensures { result.now ≡ matches_of self.now }
    {
        self.rows.as_slice()
    }

    // The match at a place, or none behind the last.
    pub fn get(&self, place: usize) -> Option<Match>
        ensures { result ≡ slice_get (matches_of self.now) place }
    {
        self.rows.get(place)
    }

    // Adds a match behind the others; a 65th is refused, and the table is as it was.
    pub fn push(&mut self, found: Match) -> Result<(), TurnFault>
        ensures said { result ≡ said (pushed (matches_of self.old) found) }
        ensures kept { matches_of self.new ≡ kept (matches_of self.old) (pushed (matches_of self.old) found) }
    {
        self.rows.push(found).map_err(|_| TurnFault::TooManyMatches)
    }
}
