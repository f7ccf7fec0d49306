ghost use Rattle.std.specs.Prelude.{◌≡◌};
ghost use Rattle.reader.specs.Numbers.{attribute_refusal, message_refusal, turn_refusal};

use crate::fault::{AttributeFault, MessageFault, TurnFault};

impl AttributeFault {
    // The number that is fixed for this fault.
    pub fn number(self) -> u8
        ensures { result ≡ (attribute_refusal self).number }
    {
        match self {
            AttributeFault::Cut { .. } => 19,
            AttributeFault::Length(_) => 20,
            AttributeFault::Past { .. } => 21,
            AttributeFault::Text => 22,
        }
    }
}

impl MessageFault {
    pub fn number(self) -> u8
        ensures { result ≡ (message_refusal self).number }
    {
        match self {
            MessageFault::Long(_) => 13,
            MessageFault::Cut(_) => 14,
            MessageFault::Length { .. } => 15,
            MessageFault::ErrorShort(_) => 16,
            MessageFault::LowestStatus => 17,
            MessageFault::Kernel(_) => 18,
            MessageFault::Attribute(fault) => fault.number(),
        }
    }

    // The kernel's errno, where it is the kernel that refused.
    pub fn errno(self) -> Option<i32>
        ensures { result ≡ (message_refusal self).errno }
    {
        match self {
            MessageFault::Kernel(errno) => Some(errno),
            _ => None,
        }
    }
}

impl TurnFault {
    pub fn number(self) -> u8
        ensures { result ≡ (turn_refusal self).number }
    {
        match self {
            TurnFault::Early => 12,
            TurnFault::Message(fault) => fault.number(),
            TurnFault::FilterShort(_) => 23,
            TurnFault::NoFilter => 24,
            TurnFault::SeveralFilters => 25,
            TurnFault::TooManyMatches => 27,
        }
    }

    pub fn errno(self) -> Option<i32>
        ensures { result ≡ (turn_refusal self).errno }
    {
        match self {
            TurnFault::Message(fault) => fault.errno(),
            _ => None,
        }
    }
}
