ghost use Rattle.std.specs.Prelude.{◌≡◌, ◌&&◌, nat_le};
ghost use Rattle.requests.specs.Asks.{key_of};

use crate::handle::TcHandle;
use crate::mode::XdpMode;

// Where filters hang: an interface, and a parent there.
#[derive(Clone, Copy, PartialEq, Eq, Hash, Debug)]
pub struct Hook {
    pub interface: u32,
    pub parent: TcHandle,
}

// Which filter: on which interface, under which parent, at which priority, and its handle there.
// No `impl Model`: callers name its fields, and to be Copy it would have to make the two handles again from their bits.
#[derive(Clone, Copy, PartialEq, Eq, Hash, Debug)]
pub struct Key {
    pub interface: u32,
    pub parent: TcHandle,
    pub priority: u16,
    pub handle: TcHandle,
}

impl Key {
    // Where the filter hangs.
    pub fn hook(self) -> Hook
        ensures { result ≡ record { interface = self.interface; parent = self.parent } }
    {
        Hook {
            interface: self.interface,
            parent: self.parent,
        }
    }

    // Whether it is the key of a filter that stands: neither its priority nor its handle is 0.
    pub fn is_numbered(self) -> bool
        ensures { let k = key_of self in result ≡ (nat_le 1 k.priority && nat_le 1 k.handle) }
    {
        self.priority != 0 && self.handle != TcHandle::AUTO_ASSIGN
    }
}

// The program that a filter runs: its descriptor, its name without a final zero, and the class it binds packets to.
// No `impl Model`: a Copy type with a lifetime has none.
#[derive(Clone, Copy, PartialEq, Eq, Hash, Debug)]
pub struct Program<'a> {
    pub descriptor: u32,
    pub name: &'a [u8],
    pub class: Option<TcHandle>,
}

// Puts the program `descriptor` on the interface, or takes it off, if the program there is `expected`.
#[derive(Clone, Copy, PartialEq, Eq, Hash, Debug)]
pub struct SetXdp {
    pub interface: u32,
    pub descriptor: Option<u32>,
    pub expected: Option<u32>,
    pub mode: XdpMode,
}

// The six requests.
// No `impl Model`: an enum has none.
#[derive(Clone, Copy, PartialEq, Eq, Hash, Debug)]
pub enum Request<'a> {
    // Sets the XDP program of an interface.
    SetXdp(SetXdp),
    // Adds the queueing discipline that takes filters on both ways.
    AddClsact { interface: u32 },
    // Adds a filter. A priority or handle of 0 leaves that choice to the other end.
    // Key and program are two values wherever they go together: who removes a filter has its key alone.
    Attach(Key, Program<'a>),
    // Gives the filter of that key another program.
    Replace(Key, Program<'a>),
    // Takes off the filter of that key.
    Remove(Key),
    // Asks for all filters under a parent.
    List(Hook),
}
