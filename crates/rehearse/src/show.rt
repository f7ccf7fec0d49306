ghost use Rattle.std.specs.Iterator.{IsFinite};

use crate::dissect::{Depth, Label, Meaning, Part};
use records::nlmsghdr::Nlmsghdr;
use records::tcmsg::Tcmsg;
use requests::handle::{TcAttachType, TcHandle};
use requests::numbers::{
    ETH_P_ALL, NLM_F_ACK, NLM_F_APPEND, NLM_F_CREATE, NLM_F_DUMP, NLM_F_ECHO, NLM_F_EXCL,
    NLM_F_MULTI, NLM_F_REPLACE, NLM_F_REQUEST, RTM_DELTFILTER, RTM_GETTFILTER, RTM_NEWQDISC,
    RTM_NEWTFILTER, RTM_SETLINK, TC_H_CLSACT, TCA_BPF_FLAG_ACT_DIRECT, XDP_FLAGS_DRV_MODE,
    XDP_FLAGS_HW_MODE, XDP_FLAGS_REPLACE, XDP_FLAGS_SKB_MODE, XDP_FLAGS_UPDATE_IF_NOEXIST,
};
use requests::request::{Hook, Key, Program, Request, SetXdp};
use std::{fmt, io};

// Texts above this many bytes are shown by their first ones.
const LONG: usize = 32;

// Bits, and what they say where they are set.
type Flag = (u32, &'static str);

// The two tables share their first lines: each is a whole reading of the flags, from the lowest bit on.
const NEW_FLAGS: [Flag; 8] = [
    (NLM_F_REQUEST as u32, "request"),
    (NLM_F_MULTI as u32, "multipart"),
    (NLM_F_ACK as u32, "acknowledge"),
    (NLM_F_ECHO as u32, "echo"),
    (NLM_F_REPLACE as u32, "replace"),
    (NLM_F_EXCL as u32, "exclusive"),
    (NLM_F_CREATE as u32, "create"),
    (NLM_F_APPEND as u32, "append"),
];

const GET_FLAGS: [Flag; 5] = [
    (NLM_F_REQUEST as u32, "request"),
    (NLM_F_MULTI as u32, "multipart"),
    (NLM_F_ACK as u32, "acknowledge"),
    (NLM_F_ECHO as u32, "echo"),
    (NLM_F_DUMP as u32, "dump"),
];

const XDP_FLAGS: [Flag; 5] = [
    (
        XDP_FLAGS_UPDATE_IF_NOEXIST,
        "only where there is no program yet",
    ),
    (XDP_FLAGS_SKB_MODE, "skb"),
    (XDP_FLAGS_DRV_MODE, "driver"),
    (XDP_FLAGS_HW_MODE, "hardware"),
    (XDP_FLAGS_REPLACE, "only in place of the expected program"),
];

const FILTER_FLAGS: [Flag; 1] = [(TCA_BPF_FLAG_ACT_DIRECT, "direct action")];

// Writes items, with `first` before the first of them and `between` before each other.
fn write_items<W: fmt::Write, I: Iterator + Drop>(
    f: &mut fmt::Formatter<W>,
    first: &str,
    between: &str,
    mut items: I,
) -> fmt::Result
where
    I::Item: fmt::Display + Drop,
    requires can { I.can_next items }
    requires ends { IsFinite (I.remaining items) }
{
    if let Some(item) = items.next() {
        write!(f, "{first}{item}")?;
        for item in items {
            write!(f, "{between}{item}")?;
        }
    }
    Ok(())
}

// Flags as a number, and what the set ones of a table say.
fn write_flags<W: fmt::Write>(f: &mut fmt::Formatter<W>, bits: u32, table: &[Flag]) -> fmt::Result {
    write!(f, "flags 0x{bits:04x}")?;
    let set = table.iter().filter(|(mask, _)| bits & *mask == *mask);
    write_items(f, ": ", ", ", set.map(|(_, says)| *says))
}

// A byte as two hexadecimal digits.
#[derive(Clone, Copy)]
struct HexByte(u8);

impl fmt::Display for HexByte {
    fn fmt<W: fmt::Write>(&self, f: &mut fmt::Formatter<W>) -> fmt::Result {
        write!(f, "{:02x}", self.0)
    }
}

// Bytes in hexadecimal, with spaces between.
#[derive(Clone, Copy)]
struct Hex<'a>(&'a [u8]);

impl fmt::Display for Hex<'_> {
    fn fmt<W: fmt::Write>(&self, f: &mut fmt::Formatter<W>) -> fmt::Result {
        write_items(f, "", " ", self.0.iter().map(|byte| HexByte(*byte)))
    }
}

// Bytes as text, each that is no printable ASCII as \xNN.
#[derive(Clone, Copy)]
pub(crate) struct Readable<'a>(pub(crate) &'a [u8]);

impl fmt::Display for Readable<'_> {
    fn fmt<W: fmt::Write>(&self, f: &mut fmt::Formatter<W>) -> fmt::Result {
        for byte in self.0 {
            match *byte {
                0x20..=0x7e => f.write_char(char::from(*byte))?,
                other => write!(f, "\\x{other:02x}")?,
            }
        }
        Ok(())
    }
}

// A word or a name; a long one by its first bytes.
#[derive(Clone, Copy)]
pub(crate) struct Brief<'a>(pub(crate) &'a [u8]);

impl fmt::Display for Brief<'_> {
    fn fmt<W: fmt::Write>(&self, f: &mut fmt::Formatter<W>) -> fmt::Result {
        let bytes = self.0;
        let len = bytes.len();
        if len <= LONG {
            return write!(f, "{}", Readable(bytes));
        }
        write!(f, "{}.. ({len} bytes)", Readable(&bytes[0..8]))
    }
}

// A line of the script, with its long words shortened.
#[derive(Clone, Copy)]
pub(crate) struct Echo<'a>(pub(crate) &'a str);

impl fmt::Display for Echo<'_> {
    fn fmt<W: fmt::Write>(&self, f: &mut fmt::Formatter<W>) -> fmt::Result {
        let words = self.0.split_whitespace();
        write_items(f, "", " ", words.map(|word| Brief(word.as_bytes())))
    }
}

fn parent_name(parent: TcHandle) -> &'static str {
    if parent == TcHandle::from(TC_H_CLSACT) {
        " (clsact)"
    } else if parent == TcHandle::from(TcAttachType::Ingress) {
        " (ingress)"
    } else if parent == TcHandle::from(TcAttachType::Egress) {
        " (egress)"
    } else {
        ""
    }
}

fn message_name(kind: u16) -> &'static str {
    match kind {
        RTM_SETLINK => "set link",
        RTM_NEWQDISC => "new queueing discipline",
        RTM_NEWTFILTER => "new filter",
        RTM_DELTFILTER => "delete filter",
        RTM_GETTFILTER => "get filters",
        _ => "unknown",
    }
}

// The flags of a message, some of which mean something else where it asks for a list.
fn write_message_flags<W: fmt::Write>(f: &mut fmt::Formatter<W>, header: &Nlmsghdr) -> fmt::Result {
    let bits = u32::from(header.flags);
    match header.kind {
        RTM_GETTFILTER => write_flags(f, bits, &GET_FLAGS),
        _ => write_flags(f, bits, &NEW_FLAGS),
    }
}

fn write_message<W: fmt::Write>(f: &mut fmt::Formatter<W>, header: &Nlmsghdr) -> fmt::Result {
    let Nlmsghdr {
        len,
        kind,
        flags: _,
        seq,
        pid,
    } = *header;
    let name = message_name(kind);
    write!(
        f,
        "{len} bytes, type {kind} ({name}), sequence {seq}, port {pid}"
    )
}

fn write_traffic<W: fmt::Write>(f: &mut fmt::Formatter<W>, header: &Tcmsg) -> fmt::Result {
    let interface = header.ifindex;
    let handle = TcHandle::from(header.handle);
    let parent = TcHandle::from(header.parent);
    let name = parent_name(parent);
    write!(
        f,
        "interface {interface}, handle {handle}, parent {parent}{name}"
    )
}

fn write_traffic_info<W: fmt::Write>(f: &mut fmt::Formatter<W>, header: &Tcmsg) -> fmt::Result {
    let priority = header.info >> 16;
    let protocol = header.info & 0xffff;
    let name = if protocol == ETH_P_ALL { " (all)" } else { "" };
    write!(f, "priority {priority}, protocol 0x{protocol:04x}{name}")
}

// Not by `Brief`, which puts the length behind the bytes and has no quotes.
fn write_text<W: fmt::Write>(
    f: &mut fmt::Formatter<W>,
    subject: &str,
    text: &[u8],
    padding: usize,
) -> fmt::Result {
    let len = text.len();
    if len > LONG {
        write!(
            f,
            "{subject} of {len} bytes beginning \"{}\", and a zero",
            Readable(&text[0..8])
        )?;
    } else {
        write!(f, "{subject} \"{}\" and a zero", Readable(text))?;
    }
    match padding {
        0 => Ok(()),
        1 => write!(f, ", 1 byte of padding"),
        _ => write!(f, ", {padding} bytes of padding"),
    }
}

fn write_descriptor<W: fmt::Write>(
    f: &mut fmt::Formatter<W>,
    subject: &str,
    bits: u32,
) -> fmt::Result {
    if bits == u32::MAX {
        write!(f, "{subject} -1 (none)")
    } else {
        write!(f, "{subject} {bits}")
    }
}

impl fmt::Display for Meaning<'_> {
    fn fmt<W: fmt::Write>(&self, f: &mut fmt::Formatter<W>) -> fmt::Result {
        match self {
            Meaning::Message(header) => write_message(f, header),
            Meaning::MessageFlags(header) => write_message_flags(f, header),
            Meaning::Traffic(header) => write_traffic(f, header),
            Meaning::TrafficInfo(header) => write_traffic_info(f, header),
            Meaning::Interface(header) => write!(f, "interface {}", header.index),
            Meaning::Nested { subject, len } => write!(f, "{subject}, nested, {len} bytes"),
            Meaning::Text {
                subject,
                text,
                padding,
            } => write_text(f, subject, text, *padding),
            Meaning::Class(class) => write!(f, "class {class}"),
            Meaning::Descriptor { subject, bits } => write_descriptor(f, subject, *bits),
            Meaning::FilterFlags(bits) => write_flags(f, *bits, &FILTER_FLAGS),
            Meaning::XdpFlags(bits) => write_flags(f, *bits, &XDP_FLAGS),
            Meaning::Unknown => write!(f, "unknown"),
        }
    }
}

impl fmt::Display for Label {
    fn fmt<W: fmt::Write>(&self, f: &mut fmt::Formatter<W>) -> fmt::Result {
        match self {
            Label::Header => write!(f, "header"),
            Label::FamilyHeader => write!(f, "family header"),
            Label::Attribute(kind) => write!(f, "attribute {kind}"),
            Label::Rest => write!(f, "rest"),
        }
    }
}

// A row: the label, up to 16 bytes, and perhaps a line of what they say.
fn show_row(
    rt: &HostRuntime,
    label: &str,
    bytes: &[u8],
    meaning: Option<Meaning<'_>>,
) -> io::Result<()> {
    let hex = Hex(bytes).to_string(rt.alloc())?;
    match meaning {
        Some(meaning) => println!(rt; "    {label:<18}{hex:<47}   {meaning}"),
        None => println!(rt; "    {label:<18}{hex}"),
    }
}

pub(crate) fn show_part(rt: &HostRuntime, part: &Part<'_>) -> io::Result<()> {
    let indent = match part.depth {
        Depth::Outer => "",
        Depth::Inner => "  ",
    };
    let label = format!(in rt.alloc(); "{indent}{}", part.label)?;
    let mut rows = part.bytes.chunks(16);
    let first = rows.next().unwrap_or(&[]);
    show_row(rt, label.as_str(), first, Some(part.meaning))?;
    if part.further.is_some() {
        show_row(rt, "", rows.next().unwrap_or(&[]), part.further)?;
    }
    for row in rows {
        show_row(rt, "", row, None)?;
    }
    Ok(())
}

fn write_key<W: fmt::Write>(f: &mut fmt::Formatter<W>, key: &Key) -> fmt::Result {
    let Key {
        interface,
        parent,
        priority,
        handle,
    } = *key;
    write!(
        f,
        "dev {interface} parent {parent} prio {priority} handle {handle}"
    )
}

// A value behind its word, where there is one.
fn write_option<W: fmt::Write, T: fmt::Display + Drop>(
    f: &mut fmt::Formatter<W>,
    word: &str,
    value: Option<T>,
) -> fmt::Result {
    if let Some(value) = value {
        write!(f, "{word}{value}")?;
    }
    Ok(())
}

fn write_program<W: fmt::Write>(f: &mut fmt::Formatter<W>, program: &Program<'_>) -> fmt::Result {
    let descriptor = program.descriptor;
    write!(f, " fd {descriptor} name {}", Brief(program.name))?;
    write_option(f, " class ", program.class)
}

// Key and program are two, as the requests have them: a removal has the key alone.
fn write_filter<W: fmt::Write>(
    f: &mut fmt::Formatter<W>,
    verb: &str,
    key: &Key,
    program: &Program<'_>,
) -> fmt::Result {
    f.write_str(verb)?;
    write_key(f, key)?;
    write_program(f, program)
}

fn write_xdp<W: fmt::Write>(f: &mut fmt::Formatter<W>, set: &SetXdp) -> fmt::Result {
    write!(f, "xdp dev {} fd ", set.interface)?;
    match set.descriptor {
        Some(descriptor) => write!(f, "{descriptor}")?,
        None => write!(f, "none")?,
    }
    write!(f, " mode {}", set.mode)?;
    write_option(f, " expect ", set.expected)
}

// A request in the words of the script.
#[derive(Clone, Copy)]
pub(crate) struct Asked<'a>(pub(crate) Request<'a>);

impl fmt::Display for Asked<'_> {
    fn fmt<W: fmt::Write>(&self, f: &mut fmt::Formatter<W>) -> fmt::Result {
        match self.0 {
            Request::SetXdp(set) => write_xdp(f, &set),
            Request::AddClsact { interface } => write!(f, "clsact dev {interface}"),
            Request::Attach(key, program) => write_filter(f, "attach ", &key, &program),
            Request::Replace(key, program) => write_filter(f, "replace ", &key, &program),
            Request::Remove(key) => {
                write!(f, "remove ")?;
                write_key(f, &key)
            }
            Request::List(Hook { interface, parent }) => {
                write!(f, "list dev {interface} parent {parent}")
            }
        }
    }
}
