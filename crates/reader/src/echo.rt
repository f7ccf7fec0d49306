use crate::matches::Match;

// The one filter message that attach and replace wait for: none yet, one, or too many, for which an `Option` has no room.
#[derive(Clone, Copy)]
pub enum Echo {
    Nothing,
    One(Match),
    Several,
}
