ghost use Rattle.std.specs.Prelude.{◌≡◌, length};
ghost use Rattle.std.specs.Iterator.{at_most};
ghost use Rattle.std.specs.Result.{result_transpose};
ghost use Rattle.records.specs.Layouts.{AttributeAt};
ghost use Rattle.reader.specs.Walks.{seen, remaining as left_by, Next, Reads, Stops};
ghost use Rattle.reader.specs.Rows.{attribute_step, attribute_of};

use crate::attribute::NlAttr;
use crate::fault::AttributeFault;
use records::align::align;
use records::nlattr::Nlattr;
use records::record::Record;

// A row of attributes, or what is left of it.
#[derive(Drop)]
pub struct NlAttrs<'a> {
    rest: &'a [u8],
}

impl<'a> NlAttrs<'a> {
    // Read to its end, a row gives the attributes that it is laid out as, and no others; and where it stops, it is laid out so up to a fault.
    pub fn new(row: &'a [u8]) -> NlAttrs<'a>
        ensures rest { result.rest.now ≡ row.now }
        ensures reads { Reads attribute_step AttributeAt }
        ensures stops { Stops attribute_step AttributeAt }
    {
        NlAttrs { rest: row }
    }

    // Takes one attribute off the front. At the end and at a fault nothing is taken.
    pub fn step(&mut self) -> Result<Option<NlAttr<'a>>, AttributeFault>
        ensures step { attribute_step self.old.rest.now ≡ seen attribute_of (result_transpose result) self.new.rest.now }
        ensures left { self.new.rest.now ≡ left_by self.old.rest.now (attribute_step self.old.rest.now) }
    {
        let row = self.rest;
        if row.is_empty() {
            return Ok(None);
        }
        let (header, body) = Nlattr::decode(row).ok_or(AttributeFault::Cut {
            size: row.len(),
            expected: 4,
        })?;
        let len = usize::from(header.len);
        if len < 4 {
            return Err(AttributeFault::Length(len));
        }
        let padded = align(u32::from(header.len));
        self.rest = row.get(padded..).ok_or(AttributeFault::Past {
            size: body.len(),
            expected: padded - 4,
        })?;
        let data = &body[..len - 4];
        Ok(Some(NlAttr { header, data }))
    }

    // The same, with the answer as an iterator has it. Asked again at a fault, it gives that fault again; a `for`, and whatever else goes
    // by the Iterator below, ends behind it.
    pub fn next(&mut self) -> Option<Result<NlAttr<'a>, AttributeFault>>
        ensures step { attribute_step self.old.rest.now ≡ seen attribute_of result self.new.rest.now }
        ensures left { self.new.rest.now ≡ left_by self.old.rest.now (attribute_step self.old.rest.now) }
    {
        self.step().transpose()
    }
}

impl<'a> Iterator for NlAttrs<'a> {
    type Item = Result<NlAttr<'a>, AttributeFault>;

    ghost next_gives = { λ s r t. Next attribute_of attribute_step s.rest.now r t.rest.now };

    ghost remaining = { λ s. at_most (length s.rest.now) };

    // The next attribute. A fault is the last that is handed out.
    fn next(&mut self) -> Option<Result<NlAttr<'a>, AttributeFault>> {
        let next = self.step();
        if next.is_err() {
            self.rest = &[];
        }
        next.transpose()
    }
}
