ghost use Rattle.std.specs.Prelude.{◌≡◌, ◌+◌, ◌≤◌, length, None};
ghost use Rattle.std.proofs.Common.{of_z};
ghost use Rattle.std.specs.Int.{w32};
ghost use Rattle.std.specs.Option.{option_map};
ghost use Rattle.requests.specs.Builders.{link_bytes};
ghost use Rattle.requests.specs.Bytes.{optional_length};
ghost use Rattle.requests.specs.Refusals.{Written};
ghost use Rattle.requests.specs.Writing.{Puts};

use crate::fault::ArgumentFault;
use crate::optional::Optional;
use crate::writer::{Writer, check_room, optional_len};
use records::ifinfomsg::Ifinfomsg;
use records::numbers::{
    IFLA_XDP_EXPECTED_FD, IFLA_XDP_FD, IFLA_XDP_FLAGS, IFLA_XDP_NESTED, RTM_SETLINK,
};

// A request about a network interface. It starts with a family header alone; the step `xdp` moves it into one with a program.
#[derive(Drop)]
pub struct Link<X> {
    family_header: Ifinfomsg,
    xdp: X,
}

impl Link<()> {
    pub fn new(family_header: Ifinfomsg) -> Link<()>
        ensures { result.family_header ≡ family_header }
    {
        Link {
            family_header,
            xdp: (),
        }
    }

    pub fn xdp<E>(self, xdp: Xdp<E>) -> Link<Xdp<E>>
        ensures { (result.family_header ≡ self.family_header) × (result.xdp ≡ xdp) }
    {
        let Link {
            family_header,
            xdp: (),
        } = self;
        Link { family_header, xdp }
    }
}

impl<E: Optional<i32>> Link<Xdp<E>> {
    // Writes the request at the front of a buffer and says how long it is. A buffer that is too short is left as it was.
    pub fn write(&self, flags: u16, out: &mut [u8]) -> Result<usize, ArgumentFault>
        ensures { Written None (link_bytes flags self.now.family_header self.now.xdp.fd self.now.xdp.flags (E.value self.now.xdp.expected_fd)) result out.old out.new }
    {
        self.xdp.write(flags, &self.family_header, out)
    }
}

// The XDP program of an interface: a descriptor, flags, and perhaps the descriptor of the program that it replaces.
#[derive(Drop)]
pub struct Xdp<E> {
    fd: i32,
    flags: u32,
    expected_fd: E,
}

impl Xdp<()> {
    pub fn new(fd: i32, flags: u32) -> Xdp<()>
        ensures { (result.fd ≡ fd) × (result.flags ≡ flags) }
    {
        Xdp {
            fd,
            flags,
            expected_fd: (),
        }
    }

    pub fn expected_fd(self, expected_fd: Option<i32>) -> Xdp<Option<i32>>
        ensures { (result.fd ≡ self.fd) × ((result.flags ≡ self.flags) × (result.expected_fd ≡ expected_fd)) }
    {
        let Xdp {
            fd,
            flags,
            expected_fd: (),
        } = self;
        Xdp {
            fd,
            flags,
            expected_fd,
        }
    }
}

impl<E: Optional<i32>> Xdp<E> {
    // The expected descriptor as its 32 bits.
    fn expected_word(&self) -> Option<u32>
        ensures word { result ≡ option_map (of_z w32) (E.value self.now.expected_fd) }
        ensures len { optional_length result ≡ optional_length (E.value self.now.expected_fd) }
    {
        self.expected_fd.as_ref().map(|fd| fd.cast_unsigned())
    }

    fn write(
        &self,
        flags: u16,
        family_header: &Ifinfomsg,
        out: &mut [u8],
    ) -> Result<usize, ArgumentFault>
        ensures { Written None (link_bytes flags family_header.now self.now.fd self.now.flags (E.value self.now.expected_fd)) result out.old out.new }
    {
        let nested = self.nested_len();
        check_room(out.len(), 32 + usize::from(nested))?;
        Ok(self.put_link(nested, flags, family_header, out))
    }

    // How many bytes the nested attribute takes with its header.
    fn nested_len(&self) -> u16
        ensures { result ≡ 20 + optional_length (E.value self.now.expected_fd) }
    {
        20 + optional_len(self.expected_word())
    }

    // Writes the whole request, whose nested attributes take `nested` bytes.
    fn put_link(&self, nested: u16, flags: u16, family_header: &Ifinfomsg, out: &mut [u8]) -> usize
        requires { (nested ≡ 20 + optional_length (E.value self.now.expected_fd)) × (32 + nested ≤ length out.old) }
        ensures end { result ≡ 32 + nested }
        ensures puts { Puts out.old out.new 0 result (link_bytes flags family_header.now self.now.fd self.now.flags (E.value self.now.expected_fd)) }
    {
        let mut writer = Writer::begin(
            out,
            32 + u32::from(nested),
            RTM_SETLINK,
            flags,
            family_header,
        );
        writer.open_attribute(IFLA_XDP_NESTED, nested);
        writer.put_word(IFLA_XDP_FD, self.fd.cast_unsigned());
        writer.put_word(IFLA_XDP_FLAGS, self.flags);
        writer.put_optional(IFLA_XDP_EXPECTED_FD, self.expected_word());
        writer.len()
    }
}
