ghost use Rattle.std.specs.Prelude.{◌≡◌, ◌+◌, List, [], length, take, pos, IfOk};
ghost use Rattle.std.specs.Option.{option_map};
ghost use Rattle.requests.specs.Handles.{bits_of};
ghost use Rattle.requests.specs.Modes.{mode_flags};
ghost use Rattle.requests.specs.Asks.{asks, key_of, program_of};
ghost use Rattle.requests.specs.Table.{condition_flag, signed_descriptor, interface_header, traffic_header, filter_header, program_items, clsact_items};
ghost use Rattle.requests.specs.Bytes.{request_bytes, request_length, program_length, optional_length};
ghost use Rattle.requests.specs.Stands.{Stands};
ghost use Rattle.requests.specs.Builders.{link_bytes, tc_bytes};
ghost use Rattle.requests.specs.Refusals.{argument_fault, program_fault, xdp_fault, interface_fault, unless, Written};

use crate::arguments::{descriptor_index, interface_index, optional_index};
use crate::bpf::Bpf;
use crate::fault::ArgumentFault;
use crate::handle::{TcHandle, tc_handler_make};
use crate::link::{Link, Xdp};
use crate::name::check_name;
use crate::request::{Hook, Key, Program, Request, SetXdp};
use crate::tc::Tc;
use crate::writer::optional_len;
use records::align::align;
use records::ifinfomsg::Ifinfomsg;
use records::numbers::{
    ETH_P_ALL, REQUEST_ACK, REQUEST_ACK_ECHO, REQUEST_ACK_ECHO_EXCL_CREATE,
    REQUEST_ACK_EXCL_CREATE, REQUEST_DUMP, TC_H_CLSACT, TCA_BPF_FLAG_ACT_DIRECT, XDP_FLAGS_REPLACE,
    XDP_FLAGS_UPDATE_IF_NOEXIST,
};
use records::tcmsg::Tcmsg;

// Only where there is no program yet, or only in the place of the expected one.
fn condition(expected: Option<u32>) -> u32
    ensures { result ≡ condition_flag expected }
{
    // no `map_or`: the two flags side by side are plainer
    match expected {
        Some(_) => XDP_FLAGS_REPLACE,
        None => XDP_FLAGS_UPDATE_IF_NOEXIST,
    }
}

// A family header with the fields that requests name; the others are 0.
fn traffic_header(ifindex: i32, handle: u32, parent: u32, info: u32) -> Tcmsg
    ensures { result ≡ record { family = 0; pad1 = 0; pad2 = 0; ifindex = ifindex; handle = handle; parent = parent; info = info } }
{
    Tcmsg {
        ifindex,
        handle,
        parent,
        info,
        ..Tcmsg::default()
    }
}

// The family header that names a filter.
pub(crate) fn filter_header(key: Key) -> Result<Tcmsg, ArgumentFault>
    ensures { result ≡ unless (interface_fault key.interface) (filter_header (key_of key)) }
{
    let ifindex = interface_index(key.interface)?;
    let info = tc_handler_make(u32::from(key.priority) << 16, ETH_P_ALL);
    Ok(traffic_header(ifindex, u32::from(key.handle), u32::from(key.parent), info))
}

fn class_bits(class: Option<TcHandle>) -> Option<u32>
    ensures { result ≡ option_map bits_of class }
{
    class.map(TcHandle::bits)
}

// `size` and `write` check alike: a builder that is made for its length alone would be no plainer than these lines.
impl SetXdp {
    // Checks the arguments, and says how many bytes the request takes.
    fn size(self) -> Result<usize, ArgumentFault>
        ensures { result ≡ unless (xdp_fault self.interface self.descriptor self.expected) (52 + optional_length self.expected) }
    {
        interface_index(self.interface)?;
        optional_index(self.descriptor)?;
        optional_index(self.expected)?;
        Ok(52 + usize::from(optional_len(self.expected)))
    }

    fn write(self, out: &mut [u8]) -> Result<usize, ArgumentFault>
        ensures { Written (xdp_fault self.interface self.descriptor self.expected) (link_bytes 0x0005 (interface_header self.interface) (signed_descriptor self.descriptor) (mode_flags self.mode + condition_flag self.expected) (option_map pos self.expected)) result out.old out.new }
    {
        let index = interface_index(self.interface)?;
        let fd = optional_index(self.descriptor)?.unwrap_or(-1);
        let expected_fd = optional_index(self.expected)?;
        let header = Ifinfomsg {
            index,
            ..Ifinfomsg::default()
        };
        let flags = self.mode.flags() + condition(self.expected);
        let xdp = Xdp::new(fd, flags).expected_fd(expected_fd);
        Link::new(header).xdp(xdp).write(REQUEST_ACK, out)
    }
}

fn write_add_clsact(interface: u32, out: &mut [u8]) -> Result<usize, ArgumentFault>
    ensures { Written (interface_fault interface) (tc_bytes 36 0x0605 (traffic_header interface 0xFFFF0000 0xFFFFFFF1 0) clsact_items) result out.old out.new }
{
    let ifindex = interface_index(interface)?;
    let handle = tc_handler_make(TC_H_CLSACT, 0);
    let tc = Tc::add_clsact(traffic_header(ifindex, handle, TC_H_CLSACT, 0));
    tc.write(REQUEST_ACK_EXCL_CREATE, b"", out)
}

// Attach and replace differ in their flags.
fn write_filter(
    flags: u16,
    key: Key,
    program: Program<'_>,
    out: &mut [u8],
) -> Result<usize, ArgumentFault>
    ensures { Written (program_fault (key_of key) (program_of program.entry)) (tc_bytes 44 flags (filter_header (key_of key)) (program_items (program_of program.entry))) result out.old out.new }
{
    let header = filter_header(key)?;
    descriptor_index(program.descriptor)?;
    let bpf = Bpf::new(program.descriptor, TCA_BPF_FLAG_ACT_DIRECT).classid(class_bits(
        program.class,
    ));
    let tc = Tc::new_filter(header, bpf);
    tc.write(flags, program.name, out)
}

fn write_remove(key: Key, out: &mut [u8]) -> Result<usize, ArgumentFault>
    ensures { Written (interface_fault key.interface) (tc_bytes 45 0x0005 (filter_header (key_of key)) []) result out.old out.new }
{
    let tc = Tc::delete_filter(filter_header(key)?);
    tc.write(REQUEST_ACK, b"", out)
}

fn write_list(hook: Hook, out: &mut [u8]) -> Result<usize, ArgumentFault>
    ensures { Written (interface_fault hook.interface) (tc_bytes 46 0x0301 (traffic_header hook.interface 0 (bits_of hook.parent) 0) []) result out.old out.new }
{
    let ifindex = interface_index(hook.interface)?;
    let tc = Tc::get_filter(traffic_header(ifindex, 0, u32::from(hook.parent), 0));
    tc.write(REQUEST_DUMP, b"", out)
}

fn filter_size(key: Key, program: Program<'_>) -> Result<usize, ArgumentFault>
    ensures { result ≡ unless (program_fault (key_of key) (program_of program.entry)) (program_length (program_of program.entry)) }
{
    interface_index(key.interface)?;
    descriptor_index(program.descriptor)?;
    check_name(program.name)?;
    let class = usize::from(optional_len(class_bits(program.class)));
    Ok(68 + class + align(program.name.len() as u32 + 1))
}

fn fixed_size(interface: u32, len: usize) -> Result<usize, ArgumentFault>
    ensures { result ≡ unless (interface_fault interface) len }
{
    interface_index(interface)?;
    Ok(len)
}

impl Request<'_> {
    // Checks the arguments, and says how many bytes the request takes.
    #[tactic(auto, using(crate::proofs::Standing::request_length_lem), unfolding(crate::specs::Refusals::argument_fault))]
    pub fn size(&self) -> Result<usize, ArgumentFault>
        ensures result { result ≡ unless (argument_fault (asks self.now)) (request_length (asks self.now)) }
        ensures exact { request_length (asks self.now) ≡ length (request_bytes (asks self.now)) }
    {
        match *self {
            Request::SetXdp(set) => set.size(),
            Request::AddClsact { interface } => fixed_size(interface, 48),
            Request::Attach(key, program) | Request::Replace(key, program) => filter_size(
                key, program,
            ),
            Request::Remove(key) => fixed_size(key.interface, 36),
            Request::List(hook) => fixed_size(hook.interface, 36),
        }
    }

    // Writes the request at the front of a buffer and says how long it is. What cannot be written is refused, by the
    // first check that fails, and then the buffer is left as it was.
    pub fn write(&self, out: &mut [u8]) -> Result<usize, ArgumentFault>
        ensures written { Written (argument_fault (asks self.now)) (request_bytes (asks self.now)) result out.old out.new }
        ensures stands { IfOk result (λ n. Stands (take n out.new) (asks self.now)) }
    {
        match *self {
            Request::SetXdp(set) => set.write(out),
            Request::AddClsact { interface } => write_add_clsact(interface, out),
            Request::Attach(key, program) => write_filter(
                REQUEST_ACK_ECHO_EXCL_CREATE,
                key,
                program,
                out,
            ),
            Request::Replace(key, program) => write_filter(REQUEST_ACK_ECHO, key, program, out),
            Request::Remove(key) => write_remove(key, out),
            Request::List(hook) => write_list(hook, out),
        }
    }
}
