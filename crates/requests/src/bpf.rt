ghost use Rattle.std.specs.Prelude.{◌≡◌, ◌+◌, ◌≤◌, length, Option as Maybe};
ghost use Rattle.records.specs.Align.{padded};
ghost use Rattle.requests.specs.Table.{bpf_items};
ghost use Rattle.requests.specs.Bytes.{optional_length};
ghost use Rattle.requests.specs.Builders.{tc_bytes};
ghost use Rattle.requests.specs.Refusals.{name_fault, Written};
ghost use Rattle.requests.specs.Writing.{Puts};

use crate::fault::ArgumentFault;
use crate::name::Name;
use crate::optional::Optional;
use crate::writer::{Writer, check_room, optional_len};
use records::align::align;
use records::numbers::{
    RTM_NEWTFILTER, TCA_BPF_CLASSID, TCA_BPF_FD, TCA_BPF_FLAGS, TCA_BPF_NAME, TCA_KIND,
    TCA_OPTIONS_NESTED,
};
use records::tcmsg::Tcmsg;

// The program of a filter: a descriptor, flags, and perhaps a class. Its name is lent to the call that writes.
#[derive(Drop)]
pub struct Bpf<C> {
    fd: u32,
    flags: u32,
    classid: C,
}

impl Bpf<()> {
    pub fn new(fd: u32, flags: u32) -> Bpf<()>
        ensures { (result.fd ≡ fd) × (result.flags ≡ flags) }
    {
        Bpf {
            fd,
            flags,
            classid: (),
        }
    }

    pub fn classid(self, classid: Option<u32>) -> Bpf<Option<u32>>
        ensures { (result.fd ≡ self.fd) × ((result.flags ≡ self.flags) × (result.classid ≡ classid)) }
    {
        let Bpf {
            fd,
            flags,
            classid: (),
        } = self;
        Bpf { fd, flags, classid }
    }
}

impl<C: Optional<u32>> Bpf<C> {
    fn class_word(&self) -> Option<u32>
        ensures { result ≡ C.value self.now.classid }
    {
        self.classid.as_ref().copied()
    }

    // How many bytes the options take with their header: the name with its zero is padded to a multiple of 4.
    fn options_len(&self, name: Name<'_>) -> u16
        ensures { result ≡ 24 + optional_length (C.value self.now.classid) + padded (length name.entry.bytes.now + 1) }
    {
        24 + optional_len(self.class_word()) + align(name.bytes().len() as u32 + 1) as u16
    }

    // Writes the whole request, whose options take `nested` bytes.
    fn put_filter(
        &self,
        nested: u16,
        flags: u16,
        family_header: &Tcmsg,
        name: Name<'_>,
        out: &mut [u8],
    ) -> usize
        requires { (nested ≡ 24 + optional_length (C.value self.now.classid) + padded (length name.bytes.now + 1)) × (44 + nested ≤ length out.old) }
        ensures end { result ≡ 44 + nested }
        ensures puts { Puts out.old out.new 0 result (tc_bytes 44 flags family_header.now (bpf_items (C.value self.now.classid) self.now.fd name.entry.bytes.now self.now.flags)) }
    {
        let mut writer = Writer::begin(
            out,
            44 + u32::from(nested),
            RTM_NEWTFILTER,
            flags,
            family_header,
        );
        writer.put_attribute(TCA_KIND, b"bpf\0");
        writer.open_attribute(TCA_OPTIONS_NESTED, nested);
        writer.put_optional(TCA_BPF_CLASSID, self.class_word());
        writer.put_word(TCA_BPF_FD, self.fd);
        writer.put_text(TCA_BPF_NAME, name);
        writer.put_word(TCA_BPF_FLAGS, self.flags);
        writer.len()
    }

    // Writes a request for a filter with this program. A name that cannot be written is refused, and then a buffer
    // that is too short; either way the buffer is left as it was.
    pub(crate) fn write(
        &self,
        flags: u16,
        family_header: &Tcmsg,
        name: &[u8],
        out: &mut [u8],
    ) -> Result<usize, ArgumentFault>
        ensures { Written (name_fault name.now) (tc_bytes 44 flags family_header.now (bpf_items (C.value self.now.classid) self.now.fd name.now self.now.flags)) result out.old out.new }
    {
        let name = Name::new(name)?;
        let nested = self.options_len(name);
        check_room(out.len(), 44 + usize::from(nested))?;
        Ok(self.put_filter(nested, flags, family_header, name, out))
    }
}
