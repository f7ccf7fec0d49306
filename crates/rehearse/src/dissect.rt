ghost use Rattle.std.specs.Prelude.{◌<◌, ◌≤◌, length, IfSome};
ghost use Rattle.records.specs.Align.{padded};
ghost use Rattle.std.specs.Iterator.{at_most};

use records::align::align;
use records::ifinfomsg::Ifinfomsg;
use records::nlattr::Nlattr;
use records::nlmsghdr::Nlmsghdr;
use records::record::Record;
use records::tcmsg::Tcmsg;
use requests::handle::TcHandle;
use requests::numbers::{
    IFLA_XDP, IFLA_XDP_EXPECTED_FD, IFLA_XDP_FD, IFLA_XDP_FLAGS, NLA_F_NESTED, RTM_SETLINK,
    TCA_BPF_CLASSID, TCA_BPF_FD, TCA_BPF_FLAGS, TCA_BPF_NAME, TCA_KIND, TCA_OPTIONS,
};
use std::alloc::{AllocError, Global};

#[derive(Clone, Copy)]
pub(crate) enum Label {
    Header,
    FamilyHeader,
    Attribute(u16),
    // bytes that are no whole record
    Rest,
}

// What the bytes of a part say.
#[derive(Clone, Copy)]
pub(crate) enum Meaning<'a> {
    Message(Nlmsghdr),
    MessageFlags(Nlmsghdr),
    Traffic(Tcmsg),
    TrafficInfo(Tcmsg),
    Interface(Ifinfomsg),
    Nested {
        subject: &'static str,
        len: usize,
    },
    Text {
        subject: &'static str,
        text: &'a [u8],
        padding: usize,
    },
    Class(TcHandle),
    Descriptor {
        subject: &'static str,
        bits: u32,
    },
    FilterFlags(u32),
    XdpFlags(u32),
    Unknown,
}

// Whether a part stands inside a nested attribute.
#[derive(Clone, Copy)]
pub(crate) enum Depth {
    Outer,
    Inner,
}

// Bytes of a request that belong together, how deep they are nested, and what they say, in one line or two.
#[derive(Clone, Copy)]
pub(crate) struct Part<'a> {
    pub(crate) label: Label,
    pub(crate) depth: Depth,
    pub(crate) bytes: &'a [u8],
    pub(crate) meaning: Meaning<'a>,
    pub(crate) further: Option<Meaning<'a>>,
}

// Where an attribute stands, which decides what its type means.
#[derive(Clone, Copy)]
enum Place {
    Interface,
    Traffic,
    Options,
    Xdp,
    Elsewhere,
}

// An attribute with its padding.
#[derive(Clone, Copy)]
struct Attribute<'a> {
    kind: u16,
    nested: bool,
    header: &'a [u8],
    whole: &'a [u8],
    payload: &'a [u8],
    padding: usize,
}

// The attributes that follow one another in these bytes, and at the end the bytes that are none. Not the reader's walk over a row: a part
// shows the bytes of an attribute's header and of its padding too.
#[derive(Drop)]
struct Attributes<'a> {
    left_over: &'a [u8],
}

// The header of the attribute at the front; none unless the attribute is there with its padding.
fn attribute_header(bytes: &[u8]) -> Option<Nlattr>
    ensures { IfSome result (λ h. (4 ≤ h.len) × (padded h.len ≤ length «bytes».now)) }
{
    let (header, _) = Nlattr::decode(bytes)?;
    let is_whole = header.len >= 4 && bytes.len() >= align(u32::from(header.len));
    is_whole.then_some(header)
}

// The attribute at the front, and the bytes behind it.
fn cut_attribute(bytes: &[u8]) -> Option<(Attribute<'_>, &[u8])>
    ensures { IfSome result (λ cut. length cut.1.now < length «bytes».now) }
{
    let header = attribute_header(bytes)?;
    let len = usize::from(header.len);
    let end = align(u32::from(header.len));
    let (whole, behind) = bytes.split_at(end);
    let attribute = Attribute {
        kind: header.kind & !NLA_F_NESTED,
        nested: header.kind & NLA_F_NESTED != 0,
        header: &whole[0..4],
        whole,
        payload: &whole[4..len],
        padding: end - len,
    };
    Some((attribute, behind))
}

impl<'a> Iterator for Attributes<'a> {
    type Item = Result<Attribute<'a>, &'a [u8]>;

    ghost remaining = { λ s. at_most (length s.left_over.now) };

    fn next(&mut self) -> Option<Result<Attribute<'a>, &'a [u8]>> {
        let bytes = self.left_over;
        if bytes.is_empty() {
            return None;
        }
        match cut_attribute(bytes) {
            Some((attribute, behind)) => {
                self.left_over = behind;
                Some(Ok(attribute))
            }
            None => {
                self.left_over = &[];
                Some(Err(bytes))
            }
        }
    }
}

// A header of a request: its label, and what it says, in one line or two.
trait Header: Record + Copy {
    const LABEL: Label;

    fn meaning(self) -> (Meaning<'static>, Option<Meaning<'static>>);
}

impl Header for Nlmsghdr {
    const LABEL: Label = Label::Header;

    fn meaning(self) -> (Meaning<'static>, Option<Meaning<'static>>) {
        (Meaning::Message(self), Some(Meaning::MessageFlags(self)))
    }
}

impl Header for Ifinfomsg {
    const LABEL: Label = Label::FamilyHeader;

    fn meaning(self) -> (Meaning<'static>, Option<Meaning<'static>>) {
        (Meaning::Interface(self), None)
    }
}

impl Header for Tcmsg {
    const LABEL: Label = Label::FamilyHeader;

    fn meaning(self) -> (Meaning<'static>, Option<Meaning<'static>>) {
        (Meaning::Traffic(self), Some(Meaning::TrafficInfo(self)))
    }
}

fn text_meaning<'a>(subject: &'static str, attribute: Attribute<'a>) -> Meaning<'a> {
    match attribute.payload {
        [text @ .., 0] => Meaning::Text {
            subject,
            text,
            padding: attribute.padding,
        },
        _ => Meaning::Unknown,
    }
}

fn number_meaning<'a>(place: Place, kind: u16, bits: u32) -> Meaning<'a> {
    match (place, kind) {
        (Place::Options, TCA_BPF_CLASSID) => Meaning::Class(TcHandle::from(bits)),
        (Place::Options, TCA_BPF_FLAGS) => Meaning::FilterFlags(bits),
        (Place::Options, TCA_BPF_FD) | (Place::Xdp, IFLA_XDP_FD) => Meaning::Descriptor {
            subject: "descriptor",
            bits,
        },
        (Place::Xdp, IFLA_XDP_FLAGS) => Meaning::XdpFlags(bits),
        (Place::Xdp, IFLA_XDP_EXPECTED_FD) => Meaning::Descriptor {
            subject: "expected descriptor",
            bits,
        },
        _ => Meaning::Unknown,
    }
}

fn meaning_of<'a>(place: Place, attribute: Attribute<'a>) -> Meaning<'a> {
    match (place, attribute.kind) {
        (Place::Traffic, TCA_KIND) => text_meaning("kind", attribute),
        (Place::Options, TCA_BPF_NAME) => text_meaning("name", attribute),
        // a payload of 4 bytes is a number, the lowest byte first
        (_, kind) => <[u8; 4]>::try_from(attribute.payload).map_or(
            Meaning::Unknown,
            |bytes| number_meaning(place, kind, u32::from_le_bytes(bytes)),
        ),
    }
}

// What a nested attribute is about, and what its types mean inside.
fn inside(place: Place, kind: u16) -> (&'static str, Place) {
    match (place, kind) {
        (Place::Traffic, TCA_OPTIONS) => ("options", Place::Options),
        (Place::Interface, IFLA_XDP) => ("XDP", Place::Xdp),
        _ => ("unknown", Place::Elsewhere),
    }
}

impl<'a> Part<'a> {
    fn rest(depth: Depth, bytes: &'a [u8]) -> Part<'a> {
        Part {
            label: Label::Rest,
            depth,
            bytes,
            meaning: Meaning::Unknown,
            further: None,
        }
    }

    // An attribute that is shown whole, or what is left over behind the last one.
    fn plain(depth: Depth, place: Place, cut: Result<Attribute<'a>, &'a [u8]>) -> Part<'a> {
        match cut {
            Ok(attribute) => Part {
                label: Label::Attribute(attribute.kind),
                depth,
                bytes: attribute.whole,
                meaning: meaning_of(place, attribute),
                further: None,
            },
            Err(rest) => Part::rest(depth, rest),
        }
    }
}

// A nested attribute: its header, and then what it holds.
fn nested_parts<'a>(
    parts: &mut Vec<Part<'a>>,
    place: Place,
    attribute: Attribute<'a>,
) -> Result<(), AllocError> {
    let (subject, inner) = inside(place, attribute.kind);
    let len = attribute.whole.len();
    parts.push(Part {
        label: Label::Attribute(attribute.kind),
        depth: Depth::Outer,
        bytes: attribute.header,
        meaning: Meaning::Nested { subject, len },
        further: None,
    })?;
    let attributes = Attributes {
        left_over: attribute.payload,
    };
    parts.extend(attributes.map(|cut| Part::plain(Depth::Inner, inner, cut)))
}

// `parts` goes from function to function: a struct round one Vec would be no plainer.
fn attribute_parts<'a>(
    parts: &mut Vec<Part<'a>>,
    place: Place,
    bytes: &'a [u8],
) -> Result<(), AllocError> {
    for cut in (Attributes { left_over: bytes }) {
        match cut {
            Ok(attribute) if attribute.nested => nested_parts(parts, place, attribute)?,
            _ => parts.push(Part::plain(Depth::Outer, place, cut))?,
        }
    }
    Ok(())
}

// The record at the front, its bytes, and the bytes behind it.
fn cut_record<R: Record>(bytes: &[u8]) -> Option<(R, &[u8], &[u8])> {
    let (front, behind) = bytes.split_at_checked(R::width())?;
    let (record, _) = R::decode(front)?;
    Some((record, front, behind))
}

// A header at the front, with the bytes behind it; none where there is no whole one.
fn header_part<'a, H: Header>(
    parts: &mut Vec<Part<'a>>,
    bytes: &'a [u8],
) -> Result<Option<(H, &'a [u8])>, AllocError> {
    let Some((header, front, behind)) = cut_record::<H>(bytes) else {
        parts.push(Part::rest(Depth::Outer, bytes))?;
        return Ok(None);
    };
    let (meaning, further) = header.meaning();
    parts.push(Part {
        label: H::LABEL,
        depth: Depth::Outer,
        bytes: front,
        meaning,
        further,
    })?;
    Ok(Some((header, behind)))
}

// A family header, and the attributes behind it.
fn family_parts<'a, H: Header>(
    parts: &mut Vec<Part<'a>>,
    place: Place,
    bytes: &'a [u8],
) -> Result<(), AllocError> {
    if let Some((_, behind)) = header_part::<H>(parts, bytes)? {
        attribute_parts(parts, place, behind)?;
    }
    Ok(())
}

// Cuts the bytes of a request into its headers and attributes, in their order.
pub(crate) fn dissect<'a>(heap: Global, bytes: &'a [u8]) -> Result<Vec<Part<'a>>, AllocError> {
    let mut parts = Vec::new(heap);
    if let Some((header, behind)) = header_part::<Nlmsghdr>(&mut parts, bytes)? {
        if header.kind == RTM_SETLINK {
            family_parts::<Ifinfomsg>(&mut parts, Place::Interface, behind)?;
        } else {
            family_parts::<Tcmsg>(&mut parts, Place::Traffic, behind)?;
        }
    }
    Ok(parts)
}
