ghost use Rattle.std.specs.Prelude.{◌≡◌, ◌+◌, ◌≤◌, [], ◌∷◌, ◌++◌, length, replicate};
ghost use Rattle.std.specs.Option.{option_map};
ghost use Rattle.records.specs.Words.{bytes2, bytes4};
ghost use Rattle.records.specs.Align.{padded};
ghost use Rattle.requests.specs.Table.{optional};
ghost use Rattle.requests.specs.Bytes.{attribute_bytes, row_bytes, optional_length, sequence};
ghost use Rattle.requests.specs.Refusals.{checked, room_fault};
ghost use Rattle.requests.specs.Writing.{Puts, Room, Wrote};

use crate::fault::ArgumentFault;
use crate::name::Name;
use records::align::padding;
use records::nlattr::Nlattr;
use records::nlmsghdr::Nlmsghdr;
use records::numbers::SEQUENCE;
use records::record::{Record, write};

// A buffer of `size` bytes has room for `expected`.
pub(crate) fn check_room(size: usize, expected: usize) -> Result<(), ArgumentFault>
    ensures { result ≡ checked (room_fault size expected) }
{
    if size < expected {
        return Err(ArgumentFault::ShortBuffer { size, expected });
    }
    Ok(())
}

// How many bytes an attribute of one word takes, if there is one.
pub(crate) fn optional_len(word: Option<u32>) -> u16
    ensures { result ≡ optional_length word }
{
    if word.is_some() { 8 } else { 0 }
}

// A message that is being written at the front of a buffer, each piece behind those before it.
#[derive(Drop)]
pub(crate) struct Writer<'a> {
    out: &'a mut [u8],
    // where the next piece begins
    at: usize,
}

impl<'a> Writer<'a> {
    // Begins a message of `len` bytes in all: writes its header, with sequence number 1 and port 0, and its family header.
    pub(crate) fn begin<F: Record>(
        out: &'a mut [u8],
        len: u32,
        kind: u16,
        flags: u16,
        family: &F,
    ) -> Writer<'a>
        requires { 16 + F.wide ≤ length out.old }
        ensures same { result.out.ghost_name ≡ out.entry.ghost_name }
        ensures room { length result.out.now ≡ length out.old }
        ensures end { result.at ≡ 16 + F.wide }
        ensures puts { Puts out.old result.out.now 0 result.at (bytes4 len ++ (bytes2 kind ++ (bytes2 flags ++ (bytes4 sequence ++ (bytes4 0 ++ F.bytes family.now))))) }
    {
        let header = Nlmsghdr {
            len,
            kind,
            flags,
            seq: SEQUENCE,
            pid: 0,
        };
        let mut writer = Writer { out, at: 0 };
        writer.put_record(&header);
        writer.put_record(family);
        writer
    }

    // How many bytes are written.
    pub(crate) fn len(&self) -> usize
        ensures { result ≡ self.now.at }
    {
        self.at
    }

    // Writes bytes.
    fn put(&mut self, piece: &[u8])
        requires { Room self.old (length piece.now) }
        ensures { Wrote self.old self.new (length piece.now) piece.now }
    {
        let end = self.at + piece.len();
        self.out[self.at..end].copy_from_slice(piece);
        self.at = end;
    }

    // Writes at most 4 zeros.
    fn put_zeros(&mut self, count: usize)
        requires { (count ≤ 4) × (Room self.old count) }
        ensures { Wrote self.old self.new count (replicate count 0) }
    {
        self.put(&[0; 4][..count]);
    }

    // Writes a record.
    fn put_record<R: Record>(&mut self, head: &R)
        requires { Room self.old R.wide }
        ensures { Wrote self.old self.new R.wide (R.bytes head.now) }
    {
        self.at = write(head, self.out, self.at).unwrap();
    }

    // Writes the header of an attribute of `len` bytes, whose payload comes next.
    pub(crate) fn open_attribute(&mut self, kind: u16, len: u16)
        requires { Room self.old 4 }
        ensures { Wrote self.old self.new 4 (bytes2 len ++ bytes2 kind) }
    {
        self.put_record(&Nlattr { len, kind });
    }

    // Writes an attribute: its header, its payload, and zeros up to a multiple of 4.
    pub(crate) fn put_attribute(&mut self, kind: u16, payload: &[u8])
        requires { (Room self.old (padded (4 + length payload.now))) × (length payload.now ≤ 65531) }
        ensures { Wrote self.old self.new (padded (4 + length payload.now)) (attribute_bytes (record { kind = kind; payload = payload.now })) }
    {
        let len = 4 + payload.len() as u16;
        self.open_attribute(kind, len);
        self.put(payload);
        self.put_zeros(padding(u32::from(len)));
    }

    // Writes an attribute of one word.
    pub(crate) fn put_word(&mut self, kind: u16, word: u32)
        requires { Room self.old 8 }
        ensures { Wrote self.old self.new 8 (attribute_bytes (record { kind = kind; payload = bytes4 word })) }
    {
        self.put_attribute(kind, &word.to_le_bytes());
    }

    // Writes an attribute of one word, or nothing where there is none.
    pub(crate) fn put_optional(&mut self, kind: u16, word: Option<u32>)
        requires { Room self.old (optional_length word) }
        ensures { Wrote self.old self.new (optional_length word) (row_bytes (optional kind (option_map bytes4 word))) }
    {
        if let Some(word) = word {
            self.put_word(kind, word);
        }
    }

    // Writes an attribute of a text with a zero behind it.
    pub(crate) fn put_text(&mut self, kind: u16, text: Name<'_>)
        requires { Room self.old (padded (5 + length text.bytes.now)) }
        ensures { Wrote self.old self.new (padded (5 + length text.entry.bytes.now)) (attribute_bytes (record { kind = kind; payload = text.entry.bytes.now ++ (0 ∷ []) })) }
    {
        let text = text.bytes();
        let len = 5 + text.len() as u16;
        self.open_attribute(kind, len);
        self.put(text);
        self.put_zeros(1 + padding(u32::from(len)));
    }
}
