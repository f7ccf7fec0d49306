ghost use Rattle.std.specs.Prelude.{◌≡◌, ◌≤◌, length, Some, None, MatchResult};
ghost use Rattle.requests.specs.Asks.{Key as AskKey};
ghost use Rattle.requests.specs.Table.{filter_header};
ghost use Rattle.requests.specs.Bytes.{row_bytes};
ghost use Rattle.requests.specs.FilterMessages.{filter_of, texts_of, name_options, options_length, filter_length, filter_bytes, filter_fault};
ghost use Rattle.requests.specs.Refusals.{unless, Written};
ghost use Rattle.requests.specs.Writing.{Puts, Room, Wrote};

use crate::fault::ArgumentFault;
use crate::name::Name;
use crate::request::Key;
use crate::write::filter_header;
use crate::writer::{Writer, check_room};
use records::align::align;
use records::numbers::{RTM_NEWTFILTER, TCA_BPF_NAME, TCA_KIND, TCA_OPTIONS};
use records::tcmsg::Tcmsg;

// A filter that is told of: its key, its kind, and its name where it has one.
// No `impl Model`: a Copy type with a lifetime has none.
#[derive(Clone, Copy, PartialEq, Eq, Hash, Debug)]
pub struct Filter<'a> {
    pub key: Key,
    pub kind: &'a [u8],
    pub name: Option<&'a [u8]>,
}

// The same where all checks pass: its family header, and its texts as names.
#[derive(Clone, Copy)]
struct Told<'a> {
    header: Tcmsg,
    kind: Name<'a>,
    name: Option<Name<'a>>,
}

impl<'a> Filter<'a> {
    // The family header of a filter that can be told of.
    pub fn check(&self) -> Result<Tcmsg, ArgumentFault>
        ensures { let f = filter_of self.now in result ≡ unless (filter_fault f.key f.kind f.name) (filter_header f.key) }
    {
        Ok(self.told()?.header)
    }

    // Writes the message that tells of the filter at the front of a buffer, and says how long it is. What cannot be
    // written is refused, by the first check that fails, and then the buffer is left as it was.
    pub fn write(&self, flags: u16, out: &mut [u8]) -> Result<usize, ArgumentFault>
        ensures { let f = filter_of self.now in Written (filter_fault f.key f.kind f.name) (filter_bytes flags f.key f.kind f.name) result out.old out.new }
    {
        let told = self.told()?;
        let size = told.size();
        check_room(out.len(), size)?;
        Ok(told.put(flags, size, out))
    }

    fn told(&self) -> Result<Told<'a>, ArgumentFault>
        ensures { let f = filter_of self.now in MatchResult result (λ t. (t.header ≡ filter_header f.key) × (t.kind.bytes.now ≡ f.kind) × (texts_of t.name ≡ f.name) × (filter_fault f.key f.kind f.name ≡ None)) (λ e. filter_fault f.key f.kind f.name ≡ Some e) }
    {
        let header = filter_header(self.key)?;
        let kind = Name::new(self.kind)?;
        let name = self.name.map(Name::new).transpose()?;
        Ok(Told { header, kind, name })
    }
}

impl Told<'_> {
    // How many bytes the options take: none without a name.
    fn options_len(&self) -> u16
        ensures value { result ≡ options_length (texts_of self.now.name) }
        ensures bound { result ≤ 268 }
    {
        // no `map_or`: the two lengths side by side are plainer
        match self.name {
            Some(name) => 4 + align(name.bytes().len() as u32 + 5) as u16,
            None => 0,
        }
    }

    // How many bytes the message takes.
    fn size(&self) -> usize
        ensures value { result ≡ filter_length self.now.kind.bytes.now (texts_of self.now.name) }
        ensures bound { result ≤ 1000 }
    {
        36 + align(self.kind.bytes().len() as u32 + 5) + usize::from(self.options_len())
    }

    // Writes the options, or nothing without a name.
    fn put_options(&self, writer: &mut Writer<'_>)
        requires { Room writer.old (options_length (texts_of self.now.name)) }
        ensures { Wrote writer.old writer.new (options_length (texts_of self.now.name)) (row_bytes (name_options (texts_of self.now.name))) }
    {
        if let Some(name) = self.name {
            writer.open_attribute(TCA_OPTIONS, self.options_len());
            writer.put_text(TCA_BPF_NAME, name);
        }
    }

    // Writes the message, which takes `size` bytes.
    fn put(&self, flags: u16, size: usize, out: &mut [u8]) -> usize
        requires { (size ≡ filter_length self.now.kind.bytes.now (texts_of self.now.name)) × (size ≤ length out.old) × (size ≤ 1000) }
        ensures end { result ≡ size }
        ensures puts { (k : AskKey) → filter_header k ≡ self.now.header → Puts out.old out.new 0 result (filter_bytes flags k self.now.kind.bytes.now (texts_of self.now.name)) }
    {
        let mut writer = Writer::begin(out, size as u32, RTM_NEWTFILTER, flags, &self.header);
        writer.put_text(TCA_KIND, self.kind);
        self.put_options(&mut writer);
        writer.len()
    }
}
