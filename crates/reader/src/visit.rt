ghost use Rattle.std.specs.Prelude.{◌≡◌, Result};
ghost use Rattle.records.specs.Layouts.{Attribute};
ghost use Rattle.reader.specs.Rows.{attribute_of};
ghost use Rattle.reader.specs.declared.fault.AttributeFault.{AttributeFault as Wrong};
ghost use Rattle.reader.specs.Visits.{told, through};

use crate::attribute::NlAttr;
use crate::fault::AttributeFault;
use crate::row::NlAttrs;

// What looks at the attributes of a row in turn. Its meaning is a value, and an attribute takes that to the next.
// No closure: a call of one that was passed in needs a `requires`, and a public function has none.
pub trait Visitor {
    ghost Sum: { Type 0 };

    ghost view: { Self → Sum };

    ghost met: { Sum → Attribute → Result Sum Wrong };

    fn meet(&mut self, attr: NlAttr<'_>) -> Result<(), AttributeFault>
        ensures { met (view self.old) (attribute_of attr.entry) ≡ told result (view self.new) };
}

// Walks a whole row, to its end or the first fault.
pub fn visit<V: Visitor>(row: &[u8], visitor: &mut V) -> Result<(), AttributeFault>
    ensures { through V.Visitor.met (V.Visitor.view visitor.old) row.now ≡ told result (V.Visitor.view visitor.new) }
{
    for next in NlAttrs::new(row) {
        let attr = next?;
        visitor.meet(attr)?;
    }
    Ok(())
}
