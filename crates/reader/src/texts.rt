ghost use Rattle.std.specs.Prelude.{◌≡◌};
ghost use Rattle.std.specs.Iterator.{YieldsFirstRef, item_count};
ghost use Rattle.reader.specs.Rows.{attribute_of};
ghost use Rattle.reader.specs.Names.{text_in, texts_of, shown};

use crate::attribute::NlAttr;
use crate::fault::AttributeFault;
use crate::row::NlAttrs;
use crate::text::text_of;
use records::numbers::NLMSGERR_ATTR_MSG;

// The texts of an error message, handed out one by one as parts of its row, without their final zeros.
#[derive(Drop)]
pub struct Texts<'a> {
    row: NlAttrs<'a>,
}

fn text_in<'a>(attr: NlAttr<'a>) -> Result<&'a [u8], AttributeFault>
    ensures { shown result ≡ text_in (attribute_of attr.entry) }
{
    if attr.kind() == NLMSGERR_ATTR_MSG {
        text_of(attr.data)
    } else {
        Err(AttributeFault::Text)
    }
}

impl<'a> Texts<'a> {
    pub fn new(row: &'a [u8]) -> Texts<'a>
        ensures { result.row.rest.now ≡ row.now }
    {
        Texts {
            row: NlAttrs::new(row),
        }
    }
}

impl<'a> Iterator for Texts<'a> {
    type Item = &'a [u8];

    ghost next_gives = { YieldsFirstRef (λ s. texts_of s.row.rest.now) };

    ghost remaining = { item_count (λ s. texts_of s.row.rest.now) };

    // The next text, or none where the row ends or is at fault.
    fn next(&mut self) -> Option<&'a [u8]> {
        self.row.find_map(|next| next.and_then(text_in).ok())
    }
}
