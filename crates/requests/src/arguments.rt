ghost use Rattle.std.specs.Prelude.{◌≡◌, pos};
ghost use Rattle.std.specs.Option.{option_map};
ghost use Rattle.requests.specs.Refusals.{unless, interface_fault, descriptor_fault, optional_descriptor_fault};

use crate::fault::ArgumentFault;

// An interface as a family header has it: signed, and not 0.
pub(crate) fn interface_index(interface: u32) -> Result<i32, ArgumentFault>
    ensures { result ≡ unless (interface_fault interface) (pos interface) }
{
    i32::try_from(interface)
        .ok()
        .filter(|&index| index != 0)
        .ok_or(ArgumentFault::Interface(interface))
}

// A descriptor, which is signed on the wire.
pub(crate) fn descriptor_index(descriptor: u32) -> Result<i32, ArgumentFault>
    ensures { result ≡ unless (descriptor_fault descriptor) (pos descriptor) }
{
    i32::try_from(descriptor).map_err(|_| ArgumentFault::Descriptor(descriptor))
}

// A descriptor that may be there.
pub(crate) fn optional_index(descriptor: Option<u32>) -> Result<Option<i32>, ArgumentFault>
    ensures { result ≡ unless (optional_descriptor_fault descriptor) (option_map pos descriptor) }
{
    descriptor.map(descriptor_index).transpose()
}
