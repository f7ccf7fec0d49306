use crate::fault::TurnFault;

// How far a reply has come. Named cases, since an `Option<Result<(), TurnFault>>` does not say which is which.
#[derive(Clone, Copy, PartialEq, Eq, Debug)]
pub enum Stage {
    // more is to come
    Going,
    // it came to its end
    Ended,
    // it came to a fault, which ends it too
    Faulted(TurnFault),
}
