ghost use Rattle.std.specs.Prelude.{◌≡◌, drop};
ghost use Rattle.reader.specs.Classes.{status_of, refusal, class_of};

use crate::class::Class;
use crate::fault::MessageFault;
use crate::visit::visit;
use crate::visitors::TextCheck;
use records::numbers::{NLMSG_DONE, NLMSG_ERROR, RTM_NEWTFILTER};

// What stands behind the first n bytes, or nothing.
pub(crate) fn behind(payload: &[u8], n: usize) -> &[u8]
    ensures { result.now ≡ drop n payload.now }
{
    payload.get(n..).unwrap_or(&[])
}

// The status that a payload begins with, if it is long enough.
fn status_of(payload: &[u8]) -> Option<i32>
    ensures { result ≡ status_of payload.now }
{
    Some(i32::from_le_bytes(*payload.first_chunk()?))
}

// A refusal by this status, with these attributes behind it.
fn refused(status: i32, attrs: &[u8]) -> MessageFault
    ensures { result ≡ refusal status attrs.now }
{
    let Some(errno) = status.checked_neg() else {
        return MessageFault::LowestStatus;
    };
    match visit(attrs, &mut TextCheck) {
        Ok(()) => MessageFault::Kernel(errno),
        Err(fault) => MessageFault::Attribute(fault),
    }
}

// A message of this type and payload, by the status where there is one.
pub fn class_of(kind: u16, payload: &[u8]) -> Class
    ensures { result ≡ class_of kind payload.now }
{
    match (status_of(payload), kind) {
        (_, NLMSG_ERROR) if payload.len() < 20 => Class::Refused(MessageFault::ErrorShort(
            payload.len(),
        )),
        (Some(0), NLMSG_ERROR) => Class::Passed,
        (Some(status), NLMSG_ERROR) => Class::Refused(refused(status, behind(payload, 20))),
        (Some(status), NLMSG_DONE) if status < 0 => Class::Refused(refused(
            status,
            behind(payload, 4),
        )),
        (_, NLMSG_DONE) => Class::Done,
        (_, RTM_NEWTFILTER) => Class::Filter,
        (_, _) => Class::Passed,
    }
}
