ghost use Rattle.std.specs.Prelude.{◌≡◌, ◌^◌, ◌≤◌, ◌⊎◌, ◌↔◌, IfErr, IfOk, IfSome, IsErr, IsOk, IsTrue};
ghost use Rattle.std.specs.List.{AllPass};
ghost use Rattle.hex.specs.Hex.{decode_of, is_hex_digit};
ghost use Rattle.rehearse.specs.Numerals.{ReadAs};
ghost use Rattle.rehearse.specs.declared.script.Misread.TheVariants.{NoMemory};

use crate::show::Brief;
use hex::FromHexError;
use requests::handle::{TcAttachType, TcHandle};
use requests::mode::XdpMode;
use requests::request::{Hook, Key, Program, Request, SetXdp};
use std::alloc::{AllocError, Global};
use std::fmt;

// How many bytes the output buffer has where a line does not say, and the most that it may say.
const MOST_ROOM: usize = 4096;

// What a script names by a text of its own.
trait Worded: Copy + 'static {
    const ALL: &'static [Self];

    fn text(self) -> &'static str;
}

// The one whose text this is.
fn named<T: Worded>(text: &str) -> Option<T> {
    T::ALL.iter().copied().find(|one| one.text() == text)
}

// What a line asks for: its first word.
#[derive(Clone, Copy)]
pub(crate) enum Verb {
    Attach,
    Replace,
    Remove,
    List,
    Clsact,
    Xdp,
}

impl Worded for Verb {
    const ALL: &'static [Verb] = &[
        Verb::Attach,
        Verb::Replace,
        Verb::Remove,
        Verb::List,
        Verb::Clsact,
        Verb::Xdp,
    ];

    fn text(self) -> &'static str {
        match self {
            Verb::Attach => "attach",
            Verb::Replace => "replace",
            Verb::Remove => "remove",
            Verb::List => "list",
            Verb::Clsact => "clsact",
            Verb::Xdp => "xdp",
        }
    }
}

impl Verb {
    // Whether the word may follow this verb.
    fn takes(self, word: Word) -> bool {
        match word {
            Word::Dev | Word::Buffer => true,
            Word::Ingress | Word::Egress | Word::Parent => !matches!(
                self,
                Verb::Clsact | Verb::Xdp
            ),
            Word::Prio | Word::Handle => matches!(
                self,
                Verb::Attach | Verb::Replace | Verb::Remove
            ),
            Word::Name | Word::NameHex | Word::Class => matches!(
                self,
                Verb::Attach | Verb::Replace
            ),
            Word::Fd => matches!(self, Verb::Attach | Verb::Replace | Verb::Xdp),
            Word::Mode | Word::Expect => matches!(self, Verb::Xdp),
        }
    }
}

// A word behind the verb. All but `ingress` and `egress` have a value.
#[derive(Clone, Copy)]
pub(crate) enum Word {
    Dev,
    Ingress,
    Egress,
    Parent,
    Prio,
    Handle,
    Fd,
    Name,
    NameHex,
    Class,
    Mode,
    Expect,
    Buffer,
}

impl Worded for Word {
    const ALL: &'static [Word] = &[
        Word::Dev,
        Word::Ingress,
        Word::Egress,
        Word::Parent,
        Word::Prio,
        Word::Handle,
        Word::Fd,
        Word::Name,
        Word::NameHex,
        Word::Class,
        Word::Mode,
        Word::Expect,
        Word::Buffer,
    ];

    fn text(self) -> &'static str {
        match self {
            Word::Dev => "dev",
            Word::Ingress => "ingress",
            Word::Egress => "egress",
            Word::Parent => "parent",
            Word::Prio => "prio",
            Word::Handle => "handle",
            Word::Fd => "fd",
            Word::Name => "name",
            Word::NameHex => "name-hex",
            Word::Class => "class",
            Word::Mode => "mode",
            Word::Expect => "expect",
            Word::Buffer => "buffer",
        }
    }
}

impl Word {
    // What the word tells.
    fn subject(self) -> &'static str {
        match self {
            Word::Dev => "interface",
            Word::Ingress | Word::Egress | Word::Parent => "parent",
            Word::Prio => "priority",
            Word::Handle => "handle",
            Word::Fd => "descriptor",
            Word::Name | Word::NameHex => "name",
            Word::Class => "class",
            Word::Mode => "mode",
            Word::Expect => "expected descriptor",
            Word::Buffer => "size of the buffer",
        }
    }

    // The words that tell the same.
    fn choices(self) -> &'static str {
        match self {
            Word::Ingress | Word::Egress | Word::Parent => "ingress, egress or parent",
            Word::Name | Word::NameHex => "name or name-hex",
            other => other.text(),
        }
    }

    // What its value has to be.
    fn value(self) -> &'static str {
        match self {
            Word::Ingress | Word::Egress => "no value",
            Word::Dev | Word::Expect => "a number up to 4294967295",
            Word::Fd => "a number up to 4294967295, or none",
            Word::Prio => "a number up to 65535",
            Word::Parent | Word::Handle | Word::Class => "a handle such as ffff:fff2",
            Word::Name => "a name",
            Word::NameHex => "two hexadecimal digits for each byte",
            Word::Mode => "default, skb, driver or hardware",
            Word::Buffer => "a number up to 4096",
        }
    }
}

impl Worded for XdpMode {
    const ALL: &'static [XdpMode] = &XdpMode::ALL;

    fn text(self) -> &'static str {
        XdpMode::text(self)
    }
}

// Why a line is not understood.
#[derive(Clone, Copy)]
pub(crate) enum Misread<'a> {
    UnknownVerb(&'a str),
    UnknownWord(&'a str),
    // a word that does not go with the verb
    Foreign(Verb, Word),
    Again(Word),
    NoValue(Word),
    Value(Word, &'a str),
    Missing(Verb, Word),
    // no program where one is needed
    NoProgram(Verb),
    // of a recorded reply: what it answers, its name, its datagrams
    UnknownReply(&'a str),
    NoReply,
    NoName,
    Datagram(&'a str),
    NoMemory,
}

// By hand: it prints itself by hand too, where its words share their texts.
impl From<AllocError> for Misread<'_> {
    fn from(_e: AllocError) -> Self {
        Misread::NoMemory
    }
}

// One for each: Rust allows no `impl` of a foreign trait for every `T: Worded`.
impl fmt::Display for Verb {
    fn fmt<W: fmt::Write>(&self, f: &mut fmt::Formatter<W>) -> fmt::Result {
        f.write_str(self.text())
    }
}

impl fmt::Display for Word {
    fn fmt<W: fmt::Write>(&self, f: &mut fmt::Formatter<W>) -> fmt::Result {
        f.write_str(self.text())
    }
}

impl fmt::Display for Misread<'_> {
    fn fmt<W: fmt::Write>(&self, f: &mut fmt::Formatter<W>) -> fmt::Result {
        match *self {
            Misread::UnknownVerb(token) => {
                write!(f, "no request is called {}", Brief(token.as_bytes()))
            }
            Misread::UnknownWord(token) => {
                write!(f, "the word {} is not known", Brief(token.as_bytes()))
            }
            Misread::Foreign(verb, word) => write!(f, "{verb} does not take the word {word}"),
            Misread::Again(word) => {
                write!(
                    f,
                    "the word {word} gives the {} a second time",
                    word.subject()
                )
            }
            Misread::NoValue(word) => {
                write!(f, "the word {word} has no value: it takes {}", word.value())
            }
            Misread::Value(word, token) => {
                let token = Brief(token.as_bytes());
                write!(f, "the word {word} takes {}, not {token}", word.value())
            }
            Misread::Missing(verb, word) => write!(f, "{verb} needs the word {}", word.choices()),
            Misread::NoProgram(verb) => {
                write!(f, "{verb} needs a program: fd none goes with xdp alone")
            }
            Misread::UnknownReply(token) => {
                write!(
                    f,
                    "a reply is an acknowledgement, an echo or a listing, not {}",
                    Brief(token.as_bytes())
                )
            }
            Misread::NoReply => write!(
                f,
                "reply needs what it answers, and its datagrams in hexadecimal"
            ),
            Misread::NoName => write!(f, "reply listing needs the name that is looked for"),
            Misread::Datagram(token) => {
                write!(
                    f,
                    "{} is no datagram in hexadecimal",
                    Brief(token.as_bytes())
                )
            }
            Misread::NoMemory => write!(f, "there is no memory for it"),
        }
    }
}

// A number in digits of this radix, with no sign.
fn number_in(text: &str, radix: u32) -> Option<u32>
    requires { (2 ≤ radix) × (radix ≤ 36) }
    ensures { ReadAs radix (2 ^ 32) text.now result }
{
    if text.starts_with('+') {
        return None;
    }
    u32::from_str_radix(text, radix).ok()
}

fn number(text: &str) -> Option<u32>
    ensures { ReadAs 10 (2 ^ 32) text.now result }
{
    number_in(text, 10)
}

// Half of a handle: hexadecimal digits, of a number below 65536.
fn half_of(text: &str) -> Option<u16>
    ensures { ReadAs 16 (2 ^ 16) text.now result }
{
    u16::try_from(number_in(text, 16)?).ok()
}

fn handle_of(text: &str) -> Option<TcHandle> {
    let (major, minor) = text.split_once(':')?;
    Some(TcHandle::new(half_of(major)?, half_of(minor)?))
}

fn priority_of(text: &str) -> Option<u16> {
    u16::try_from(number(text)?).ok()
}

fn room_of(text: &str) -> Option<usize>
    ensures { IfSome result (λ n. n ≤ 4096) }
{
    let room = number(text)? as usize;
    (room <= MOST_ROOM).then_some(room)
}

// The program of an `fd`: one that is open, or none, which takes the program off.
fn descriptor_of(text: &str) -> Option<Option<u32>> {
    if text == "none" {
        return Some(None);
    }
    number(text).map(Some)
}

// A name as the script has it: as text, or in hexadecimal.
#[derive(Clone, Copy)]
enum Name<'a> {
    Text(&'a str),
    Hex(&'a str),
}

// Whether each byte is a digit in hexadecimal.
fn is_hex(text: &str) -> bool
    ensures { IsTrue result ↔ AllPass is_hex_digit text.now }
{
    text.bytes().all(|byte| byte.is_ascii_hexdigit())
}

// The bytes of a text in hexadecimal, or what is to be said of a text that is none, also where there would be no memory for it.
pub(crate) fn hex_bytes<'a>(
    heap: Global,
    text: &str,
    otherwise: Misread<'a>,
) -> Result<Vec<u8>, Misread<'a>>
    ensures bytes { IfOk result (λ bytes. decode_of text.now ≡ Ok bytes.items) }
    ensures refused { IfErr result (λ e. ((e ≡ NoMemory) × IsOk (decode_of text.now)) ⊎ ((e ≡ otherwise.entry) × IsErr (decode_of text.now))) }
{
    // no `map_err`: tried, and through its closure the clause `refused` stayed open
    match hex::decode(heap, text) {
        Ok(bytes) => Ok(bytes),
        Err(FromHexError::OutOfMemory) => Err(if is_hex(text) {
            Misread::NoMemory
        } else {
            otherwise
        }),
        Err(_) => Err(otherwise),
    }
}

// What the words of a line told.
#[derive(Clone, Copy, Default)]
struct Told<'a> {
    interface: Option<u32>,
    parent: Option<TcHandle>,
    priority: Option<u16>,
    handle: Option<TcHandle>,
    // `fd none` tells that there is no program
    descriptor: Option<Option<u32>>,
    name: Option<Name<'a>>,
    class: Option<TcHandle>,
    mode: Option<XdpMode>,
    expected: Option<u32>,
    room: Option<usize>,
}

// Fills a place that nothing was told of yet.
fn fill<'a, T: Copy>(
    place: &mut Option<T>,
    word: Word,
    token: &'a str,
    value: Option<T>,
) -> Result<(), Misread<'a>> {
    let value = value.ok_or(Misread::Value(word, token))?;
    if place.replace(value).is_some() {
        return Err(Misread::Again(word));
    }
    Ok(())
}

impl<'a> Told<'a> {
    // Takes a word with its value.
    fn take(&mut self, word: Word, token: &'a str) -> Result<(), Misread<'a>> {
        match word {
            Word::Dev => fill(&mut self.interface, word, token, number(token)),
            Word::Ingress => {
                let parent = TcAttachType::Ingress.into();
                fill(&mut self.parent, word, token, Some(parent))
            }
            Word::Egress => {
                let parent = TcAttachType::Egress.into();
                fill(&mut self.parent, word, token, Some(parent))
            }
            Word::Parent => fill(&mut self.parent, word, token, handle_of(token)),
            Word::Prio => fill(&mut self.priority, word, token, priority_of(token)),
            Word::Handle => fill(&mut self.handle, word, token, handle_of(token)),
            Word::Fd => fill(&mut self.descriptor, word, token, descriptor_of(token)),
            Word::Name => fill(&mut self.name, word, token, Some(Name::Text(token))),
            Word::NameHex => fill(&mut self.name, word, token, Some(Name::Hex(token))),
            Word::Class => fill(&mut self.class, word, token, handle_of(token)),
            Word::Mode => fill(&mut self.mode, word, token, named(token)),
            Word::Expect => fill(&mut self.expected, word, token, number(token)),
            Word::Buffer => fill(&mut self.room, word, token, room_of(token)),
        }
    }
}

// A line of the script: what it asks for, and what its words told.
#[derive(Clone, Copy)]
pub(crate) struct Command<'a> {
    verb: Verb,
    told: Told<'a>,
}

impl<'a> Command<'a> {
    pub(crate) fn parse(line: &'a str) -> Result<Command<'a>, Misread<'a>> {
        let mut tokens = line.split_whitespace();
        let first = tokens.next().unwrap_or("");
        let verb: Verb = named(first).ok_or(Misread::UnknownVerb(first))?;
        let mut told = Told::default();
        // no `for`: a word takes its value from the same tokens
        while let Some(token) = tokens.next() {
            let word: Word = named(token).ok_or(Misread::UnknownWord(token))?;
            if !verb.takes(word) {
                return Err(Misread::Foreign(verb, word));
            }
            let value = match word {
                Word::Ingress | Word::Egress => token,
                _ => tokens.next().ok_or(Misread::NoValue(word))?,
            };
            told.take(word, value)?;
        }
        Ok(Command { verb, told })
    }

    // How many bytes the output buffer is to have.
    pub(crate) fn room(&self) -> usize {
        self.told.room.unwrap_or(MOST_ROOM)
    }

    // The bytes of the name; none where there is no name.
    pub(crate) fn name(&self, heap: Global) -> Result<Vec<u8>, Misread<'a>> {
        match self.told.name {
            Some(Name::Text(text)) => Ok(Vec::from_slice(heap, text.as_bytes())?),
            Some(Name::Hex(text)) => hex_bytes(heap, text, Misread::Value(Word::NameHex, text)),
            None => Ok(Vec::new(heap)),
        }
    }

    // The request, with the bytes of its name.
    pub(crate) fn request<'n>(&self, name: &'n [u8]) -> Result<Request<'n>, Misread<'a>> {
        let interface = self.need(Word::Dev, self.told.interface)?;
        match self.verb {
            Verb::Attach => Ok(Request::Attach(self.key(interface)?, self.program(name)?)),
            Verb::Replace => Ok(Request::Replace(self.key(interface)?, self.program(name)?)),
            Verb::Remove => Ok(Request::Remove(self.key(interface)?)),
            Verb::List => {
                let parent = self.need(Word::Parent, self.told.parent)?;
                Ok(Request::List(Hook { interface, parent }))
            }
            Verb::Clsact => Ok(Request::AddClsact { interface }),
            Verb::Xdp => Ok(Request::SetXdp(SetXdp {
                interface,
                descriptor: self.need(Word::Fd, self.told.descriptor)?,
                expected: self.told.expected,
                mode: self.told.mode.unwrap_or(XdpMode::Default),
            })),
        }
    }

    fn need<T: Copy>(&self, word: Word, value: Option<T>) -> Result<T, Misread<'a>> {
        value.ok_or(Misread::Missing(self.verb, word))
    }

    // Which filter; a new one may leave its priority and its handle to the other end.
    fn key(&self, interface: u32) -> Result<Key, Misread<'a>> {
        let parent = self.need(Word::Parent, self.told.parent)?;
        let (priority, handle) = match self.verb {
            Verb::Attach => (
                self.told.priority.unwrap_or(0),
                self.told.handle.unwrap_or(TcHandle::AUTO_ASSIGN),
            ),
            _ => (
                self.need(Word::Prio, self.told.priority)?,
                self.need(Word::Handle, self.told.handle)?,
            ),
        };
        Ok(Key {
            interface,
            parent,
            priority,
            handle,
        })
    }

    fn program<'n>(&self, name: &'n [u8]) -> Result<Program<'n>, Misread<'a>> {
        self.need(Word::Name, self.told.name)?;
        let descriptor = self
            .need(Word::Fd, self.told.descriptor)?
            .ok_or(Misread::NoProgram(self.verb))?;
        Ok(Program {
            descriptor,
            name,
            class: self.told.class,
        })
    }
}
