ghost use Rattle.std.specs.Prelude.{◌≡◌, Bool};
ghost use Rattle.reader.specs.Names.{Sought, in_options, in_filter, is_bpf, checked_text, matching};

use crate::attribute::NlAttr;
use crate::fault::AttributeFault;
use crate::text::text_of;
use crate::visit::{Visitor, visit};
use records::numbers::{NLMSGERR_ATTR_MSG, TCA_BPF_NAME, TCA_KIND, TCA_OPTIONS};

// Whether the options hold this name.
#[derive(Drop)]
struct Names<'a> {
    name: &'a [u8],
    found: bool,
}

impl<'a> Visitor for Names<'a> {
    ghost Sum = { Sought };

    ghost view = { λ s. record { name = s.name.now; found = s.found } };

    ghost met = { in_options };

    fn meet(&mut self, attr: NlAttr<'_>) -> Result<(), AttributeFault> {
        if attr.kind() == TCA_BPF_NAME {
            let text = text_of(attr.data)?;
            self.found |= text == self.name;
        }
        Ok(())
    }
}

// The names in the options of a filter's row.
#[derive(Drop)]
struct Options<'a> {
    names: Names<'a>,
}

impl<'a> Visitor for Options<'a> {
    ghost Sum = { Sought };

    ghost view = { λ s. record { name = s.names.name.now; found = s.names.found } };

    ghost met = { in_filter };

    fn meet(&mut self, attr: NlAttr<'_>) -> Result<(), AttributeFault> {
        if attr.kind() == TCA_OPTIONS {
            visit(attr.data, &mut self.names)?;
        }
        Ok(())
    }
}

// Whether the kind of a filter is bpf.
#[derive(Drop)]
struct Kind {
    bpf: bool,
}

impl Visitor for Kind {
    ghost Sum = { Bool };

    ghost view = { λ s. s.bpf };

    ghost met = { is_bpf };

    fn meet(&mut self, attr: NlAttr<'_>) -> Result<(), AttributeFault> {
        self.bpf |= attr.kind() == TCA_KIND && attr.data == b"bpf\0".as_slice();
        Ok(())
    }
}

// Whether every text of an error message is well formed.
#[derive(Drop)]
pub(crate) struct TextCheck;

impl Visitor for TextCheck {
    ghost Sum = { Unit {0} };

    ghost view = { λ _. tt };

    ghost met = { checked_text };

    fn meet(&mut self, attr: NlAttr<'_>) -> Result<(), AttributeFault> {
        if attr.kind() == NLMSGERR_ATTR_MSG {
            let _text = text_of(attr.data)?;
        }
        Ok(())
    }
}

// Whether the filter with this row of attributes is a bpf filter of this name. The row is walked whole first.
pub fn is_named(row: &[u8], name: &[u8]) -> Result<bool, AttributeFault>
    ensures { result ≡ matching name.now row.now }
{
    let mut kind = Kind { bpf: false };
    visit(row, &mut kind)?;
    if !kind.bpf {
        return Ok(false);
    }
    let mut options = Options {
        names: Names { name, found: false },
    };
    visit(row, &mut options)?;
    Ok(options.names.found)
}
