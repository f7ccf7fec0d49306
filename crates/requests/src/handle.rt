ghost use Rattle.std.specs.Prelude.{◌≡◌, Some};
ghost use Rattle.requests.specs.Handles.{bits_of, handle_of, joined, parent_of, handle_text};

use records::numbers::{TC_H_CLSACT, TC_H_MIN_EGRESS, TC_H_MIN_INGRESS};
use std::fmt;

// The upper 16 bits of `major` and the lower 16 bits of `minor`.
pub fn tc_handler_make(major: u32, minor: u32) -> u32
    ensures { result ≡ joined major minor }
{
    major >> 16 << 16 | minor & 0xFFFF
}

// A handle of traffic control, written `major:minor`: of a filter, a class or a queueing discipline.
// No `impl Model`: tried; the borrow checker has no rule for a `Request` whose handles have one, so what reads or writes it has no proof.
#[derive(Clone, Copy, PartialEq, Eq, Hash, Default, Debug)]
pub struct TcHandle {
    major: u16,
    minor: u16,
}

impl TcHandle {
    // Asks the other end to choose the handle.
    pub const AUTO_ASSIGN: TcHandle = TcHandle { major: 0, minor: 0 };

    // The same, as a function: handle 0:0.
    pub fn auto_assign() -> TcHandle
        ensures { bits_of result ≡ 0 }
    {
        TcHandle::AUTO_ASSIGN
    }

    pub fn new(major: u16, minor: u16) -> TcHandle
        ensures { result ≡ record { major = major; minor = minor } }
    {
        TcHandle { major, minor }
    }

    // The handle of 32 bits, and the 32 bits of a handle: each undoes the other.
    pub fn of_bits(bits: u32) -> TcHandle
        ensures value { result ≡ handle_of bits }
        ensures back { bits_of result ≡ bits }
    {
        TcHandle {
            major: (bits >> 16) as u16,
            minor: (bits & 0xFFFF) as u16,
        }
    }

    pub fn bits(self) -> u32
        ensures value { result ≡ bits_of self }
        ensures back { handle_of result ≡ self }
    {
        let TcHandle { major, minor } = self;
        u32::from(major) << 16 | u32::from(minor)
    }

    pub fn major(self) -> u16
        ensures { result ≡ self.major }
    {
        self.major
    }

    pub fn minor(self) -> u16
        ensures { result ≡ self.minor }
    {
        self.minor
    }
}

// As `tc` writes it: both halves in hexadecimal.
impl fmt::Display for TcHandle {
    ghost output = { λ h. Some (handle_text h) };

    fn fmt<W: fmt::Write>(&self, f: &mut fmt::Formatter<W>) -> fmt::Result {
        let TcHandle { major, minor } = *self;
        write!(f, "{major:x}:{minor:x}")
    }
}

impl From<TcHandle> for u32 {
    ghost from_gives = { λ h r. r ≡ bits_of h };

    fn from(handle: TcHandle) -> u32 {
        handle.bits()
    }
}

impl From<u32> for TcHandle {
    ghost from_gives = { λ n r. r ≡ handle_of n };

    fn from(bits: u32) -> TcHandle {
        TcHandle::of_bits(bits)
    }
}

// Where clsact takes filters: for packets that come in, or for packets that go out.
#[derive(Clone, Copy, PartialEq, Eq, Hash, Debug)]
pub enum TcAttachType {
    Ingress,
    Egress,
}

impl From<TcAttachType> for TcHandle {
    ghost from_gives = { λ t r. bits_of r ≡ parent_of t };

    fn from(attach_type: TcAttachType) -> TcHandle {
        let minor = match attach_type {
            TcAttachType::Ingress => TC_H_MIN_INGRESS,
            TcAttachType::Egress => TC_H_MIN_EGRESS,
        };
        TcHandle::from(tc_handler_make(TC_H_CLSACT, minor))
    }
}
