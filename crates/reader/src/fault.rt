ghost use Rattle.std.specs.Prelude.{◌≡◌};
ghost use Rattle.reader.specs.declared.fault.MessageFault.TheVariants.{Attribute};
ghost use Rattle.reader.specs.declared.fault.TurnFault.TheVariants.{Message};

use crate::errno::errno_name;
use thiserror::Error;

// What is wrong with an attribute.
#[derive(Clone, Copy, PartialEq, Eq, Debug, Error)]
pub enum AttributeFault {
    // 19: `size` bytes are left, too few for a header of `expected`
    #[error("attribute: {size} bytes are left, a header has {expected}")]
    Cut { size: usize, expected: usize },
    // 20: the length that the header says is below 4
    #[error("attribute: a length of {0}, which is below 4")]
    Length(usize),
    // 21: `size` bytes are left behind the header, too few for a payload and padding of `expected`
    #[error("attribute: {expected} bytes of payload and padding where {size} are left")]
    Past { size: usize, expected: usize },
    // 22: a text or a name without its final zero, or with an earlier one
    #[error("attribute: a text without its final zero, or with an earlier one")]
    Text,
}

// What is wrong with a message; or the kernel's refusal, which is one.
#[derive(Clone, Copy, PartialEq, Eq, Debug, Error)]
pub enum MessageFault {
    // 13: a datagram of more than 4,096 bytes, this many
    #[error("message: a datagram of {0} bytes, 4096 are the most")]
    Long(usize),
    // 14: fewer than 16 bytes are left, this many
    #[error("message: {0} bytes are left, a header has 16")]
    Cut(usize),
    // 15: the length that the header says is below 16, or more than is left
    #[error("message: a length of {len} where {left} bytes are left")]
    Length { len: u32, left: usize },
    // 16: an error message with a payload of fewer than 20 bytes, this many
    #[error("message: an error with {0} bytes behind its header, 20 are needed")]
    ErrorShort(usize),
    // 17: a status that has no errno
    #[error("message: status -2147483648 has no errno")]
    LowestStatus,
    // 18: the kernel refused, with this errno
    #[error("the kernel refused with errno {0} ({name})", name = errno_name(*.0))]
    Kernel(i32),
    // 19 to 22
    #[error(transparent)]
    Attribute(AttributeFault),
}

// Why a turn did not come to its end as it should.
#[derive(Clone, Copy, PartialEq, Eq, Debug, Error)]
pub enum TurnFault {
    // 12: closed as read before the reply's end
    #[error("the reply has not come to its end")]
    Early,
    // 13 to 22
    #[error(transparent)]
    Message(MessageFault),
    // 23: a filter message with a payload of fewer than 20 bytes, this many
    #[error("reply: a filter message has {0} bytes behind its header, 20 are needed")]
    FilterShort(usize),
    // 24: no filter message
    #[error("reply: no filter message came")]
    NoFilter,
    // 25: several filter messages
    #[error("reply: several filter messages came")]
    SeveralFilters,
    // 27: a 65th match
    #[error("reply: a 65th match, 64 are the most")]
    TooManyMatches,
}

// By hand, and not by `#[from]`, whose contract does not say which case it makes.
impl From<AttributeFault> for MessageFault {
    ghost from_gives = { λ a r. r ≡ Attribute a };

    fn from(fault: AttributeFault) -> MessageFault {
        MessageFault::Attribute(fault)
    }
}

// By hand, as the one above.
impl From<MessageFault> for TurnFault {
    ghost from_gives = { λ m r. r ≡ Message m };

    fn from(fault: MessageFault) -> TurnFault {
        TurnFault::Message(fault)
    }
}
