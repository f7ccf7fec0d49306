use crate::fault::MessageFault;

// What a message is to a turn.
#[derive(Clone, Copy, PartialEq, Eq, Debug)]
pub enum Class {
    // an error message, or a DONE with a negative status
    Refused(MessageFault),
    // the end of the reply
    Done,
    // a filter
    Filter,
    // an acknowledgement, or of a type that is passed over
    Passed,
}
