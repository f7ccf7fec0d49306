ghost use Rattle.std.specs.Prelude.{◌≡◌, true, ◌&&◌, length, Some, nat_le};
ghost use Rattle.std.specs.Option.{option_map, option_copied};
ghost use Rattle.std.specs.Str.{bytes_eq};
ghost use Rattle.requests.specs.Asks.{key_of};
ghost use Rattle.requests.specs.FilterMessages.{Filter as Told, filter_of, filter_fault};
ghost use Rattle.hosts.specs.Meaning.{bpf};
ghost use Rattle.filters.specs.Fitting.{is_filter, standing, filter_with, may_be_named, passes};
ghost use Rattle.filters.specs.Keys.{named};
ghost use Rattle.filters.specs.Rows.{meaning};

use crate::row::Row;
use crate::text::Text;
use keyed::row::Keyed;
use requests::filter::Filter;
use requests::handle::TcHandle;
use requests::name::Name;
use requests::request::Key;

const BPF: &[u8] = b"bpf";

fn is_kind(kind: &[u8]) -> bool
    ensures { result ≡ (nat_le 1 (length kind.now) && nat_le (length kind.now) 15) }
{
    (1..=15).contains(&kind.len())
}

// Only bpf filters have names.
fn may_be_named(kind: &[u8], name: Option<&[u8]>) -> bool
    ensures { result ≡ may_be_named kind.now (option_copied name.entry) }
{
    name.is_none() || kind == BPF
}

// Whether the checks of an attach pass.
fn passes_checks(filter: &Filter<'_>) -> bool
    ensures { let f = filter_of filter.now in result ≡ passes (filter_fault f.key f.kind f.name) }
{
    filter.check().is_ok()
}

// Whether a filter can stand here.
fn is_filter(filter: &Filter<'_>) -> bool
    ensures { result ≡ is_filter (filter_of filter.now) }
{
    passes_checks(filter)
        && filter.key.is_numbered()
        && is_kind(filter.kind)
        && may_be_named(filter.kind, filter.name)
}

impl Keyed for Row {
    ghost Meant = { Told };

    ghost means = { meaning };

    ghost key_in = { λ f. f.key };

    fn key(&self) -> Key {
        self.key
    }
}

impl Row {
    // A row for a filter, or none where it cannot stand here.
    pub fn new(filter: Filter<'_>) -> Option<Row>
        ensures { option_map meaning result ≡ standing (filter_of filter.entry) }
    {
        if !is_filter(&filter) {
            return None;
        }
        Some(Row {
            key: filter.key,
            kind: Text::of(filter.kind),
            name: Text::perhaps(filter.name),
        })
    }

    // A row for a bpf filter of this name, or none where it cannot stand here.
    pub fn bpf(key: Key, name: &[u8]) -> Option<Row>
        ensures { option_map meaning result ≡ standing (filter_with (key_of key) bpf (Some name.now)) }
    {
        Row::new(Filter {
            key,
            kind: BPF,
            name: Some(name),
        })
    }

    // Some row, for a place that nothing stands on.
    pub(crate) fn blank() -> Row {
        let key = Key {
            interface: 1,
            parent: TcHandle::of_bits(0),
            priority: 1,
            handle: TcHandle::of_bits(1),
        };
        Row {
            key,
            kind: Text::of(b"-"),
            name: None,
        }
    }

    // The filter that stands here.
    pub fn filter(&self) -> Filter<'_>
        ensures { filter_of result ≡ meaning self.now }
    {
        Filter {
            key: self.key,
            kind: self.kind.bytes(),
            name: self.name.as_ref().map(Text::bytes),
        }
    }

    pub fn is_bpf(&self) -> bool
        ensures { result ≡ bytes_eq (meaning self.now).kind bpf }
    {
        self.kind.bytes() == BPF
    }

    // The same filter under another name, or none where that cannot be: only bpf filters have names. What stays was
    // checked when the row was made, and what comes when the name was.
    pub(crate) fn renamed(&self, name: Name<'_>) -> Option<Row>
        ensures { option_map meaning result ≡ standing (named (meaning self.now) name.entry.bytes.now) }
    {
        if !self.is_bpf() {
            return None;
        }
        Some(Row {
            key: self.key,
            kind: self.kind,
            name: Some(Text::of(name.bytes())),
        })
    }
}
