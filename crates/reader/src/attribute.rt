ghost use Rattle.std.specs.Prelude.{◌≡◌};
ghost use Rattle.reader.specs.Rows.{attribute_of, plain_kind};

use records::nlattr::Nlattr;
use records::nlmsghdr::Nlmsghdr;
use records::numbers::NLA_TYPE_MASK;

// One attribute: its header, and its payload as a part of the bytes that it was read from.
// No `impl Model`: a Copy type with a lifetime has none.
#[derive(Clone, Copy)]
pub struct NlAttr<'a> {
    pub header: Nlattr,
    pub data: &'a [u8],
}

impl NlAttr<'_> {
    // The type without its two flags, as types are compared.
    pub fn kind(&self) -> u16
        ensures { result ≡ plain_kind (attribute_of self.now) }
    {
        self.header.kind & NLA_TYPE_MASK
    }
}

// One message: its header, and its payload as a part of the datagram.
#[derive(Clone, Copy)]
pub struct NetlinkMessage<'a> {
    pub header: Nlmsghdr,
    pub data: &'a [u8],
}
