use thiserror::Error;

// What the arguments of a request can fail at; each has a number, and the lower one is checked first.
#[derive(Clone, Copy, PartialEq, Eq, Hash, Debug, Error)]
pub enum ArgumentFault {
    // the interface is 0 or above 2,147,483,647
    #[error("number 1: interface {0} is not from 1 to 2147483647")]
    Interface(u32),
    // the descriptor is above 2,147,483,647
    #[error("number 2: descriptor {0} is above 2147483647")]
    Descriptor(u32),
    // a zero byte in the name
    #[error("number 3: the name has a zero byte")]
    ZeroInName,
    // the name has more than 256 bytes; this many
    #[error("number 4: the name has {0} bytes, 256 are the most")]
    LongName(usize),
    // the buffer has `size` bytes where `expected` are needed
    #[error("number 8: the buffer has {size} bytes, {expected} are needed")]
    ShortBuffer { size: usize, expected: usize },
}
