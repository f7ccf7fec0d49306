ghost use Rattle.std.specs.Prelude.{◌≡◌, [], length, None};
ghost use Rattle.requests.specs.Table.{clsact_items};
ghost use Rattle.requests.specs.Builders.{tc_bytes};
ghost use Rattle.requests.specs.Operations.{operation_type, operation_items, operation_fault};
ghost use Rattle.requests.specs.Refusals.{Written};
ghost use Rattle.requests.specs.declared.tc.TcOperation.TheVariants.{DeleteFilter, GetFilter, Clsact, NewFilter};

use crate::bpf::Bpf;
use crate::fault::ArgumentFault;
use crate::optional::Optional;
use crate::writer::{Writer, check_room};
use records::numbers::{RTM_DELTFILTER, RTM_GETTFILTER, RTM_NEWQDISC, TCA_KIND};
use records::tcmsg::Tcmsg;

// A traffic control request: a family header and what is done, perhaps with a program that has a class.
#[derive(Drop)]
pub struct Tc<C> {
    family_header: Tcmsg,
    operation: TcOperation<C>,
}

#[derive(Drop)]
enum TcOperation<C> {
    DeleteFilter,
    GetFilter,
    Clsact,
    NewFilter(Bpf<C>),
}

impl Tc<()> {
    pub fn add_clsact(family_header: Tcmsg) -> Tc<()>
        ensures { (result.family_header ≡ family_header) × (result.operation ≡ Clsact) }
    {
        Tc {
            family_header,
            operation: TcOperation::Clsact,
        }
    }

    pub fn new_filter<C>(family_header: Tcmsg, bpf: Bpf<C>) -> Tc<C>
        ensures { (result.family_header ≡ family_header) × (result.operation ≡ NewFilter bpf) }
    {
        Tc {
            family_header,
            operation: TcOperation::NewFilter(bpf),
        }
    }

    pub fn delete_filter(family_header: Tcmsg) -> Tc<()>
        ensures { (result.family_header ≡ family_header) × (result.operation ≡ DeleteFilter) }
    {
        Tc {
            family_header,
            operation: TcOperation::DeleteFilter,
        }
    }

    pub fn get_filter(family_header: Tcmsg) -> Tc<()>
        ensures { (result.family_header ≡ family_header) × (result.operation ≡ GetFilter) }
    {
        Tc {
            family_header,
            operation: TcOperation::GetFilter,
        }
    }
}

// Flags, header and buffer stay apart: each public `write`, which takes them singly, would make a struct for `Writer::begin` to take apart.

// Writes a request that has a family header and no attributes.
fn write_bare(
    kind: u16,
    flags: u16,
    family_header: &Tcmsg,
    out: &mut [u8],
) -> Result<usize, ArgumentFault>
    ensures { Written None (tc_bytes kind flags family_header.now []) result out.old out.new }
{
    check_room(out.len(), 36)?;
    let writer = Writer::begin(out, 36, kind, flags, family_header);
    Ok(writer.len())
}

fn write_clsact(flags: u16, family_header: &Tcmsg, out: &mut [u8]) -> Result<usize, ArgumentFault>
    ensures { Written None (tc_bytes 36 flags family_header.now clsact_items) result out.old out.new }
{
    check_room(out.len(), 48)?;
    let mut writer = Writer::begin(out, 48, RTM_NEWQDISC, flags, family_header);
    writer.put_attribute(TCA_KIND, b"clsact\0");
    Ok(writer.len())
}

impl<C: Optional<u32>> Tc<C> {
    // Writes the request at the front of a buffer and says how long it is. `name` is lent for the program of a new
    // filter; the other requests have none and do not look at it. What is refused leaves the buffer as it was.
    pub fn write(&self, flags: u16, name: &[u8], out: &mut [u8]) -> Result<usize, ArgumentFault>
        ensures { Written (operation_fault self.now.operation name.now) (tc_bytes (operation_type self.now.operation) flags self.now.family_header (operation_items C.value self.now.operation name.now)) result out.old out.new }
    {
        match &self.operation {
            TcOperation::DeleteFilter => write_bare(
                RTM_DELTFILTER,
                flags,
                &self.family_header,
                out,
            ),
            TcOperation::GetFilter => write_bare(RTM_GETTFILTER, flags, &self.family_header, out),
            TcOperation::Clsact => write_clsact(flags, &self.family_header, out),
            TcOperation::NewFilter(bpf) => bpf.write(flags, &self.family_header, name, out),
        }
    }
}
