ghost use Rattle.std.specs.Prelude.{◌≡◌, ℕ, List, Result};
ghost use Rattle.reader.specs.declared.fault.TurnFault.{TurnFault as Wrong};
ghost use Rattle.reader.specs.Replies.{said, kept};

use crate::fault::TurnFault;

// What takes the filter messages of a reply. Its meaning is a table, and a message's payload takes that to the next, or is a fault and
// leaves it as it was. The walk over a reply knows no more of the table.
pub trait Sink {
    ghost Table: { Type 0 };

    ghost view: { Self → Table };

    ghost fed: { Table → List ℕ → Result Table Wrong };

    fn filter(&mut self, payload: &[u8]) -> Result<(), TurnFault>
        ensures said { result ≡ said (fed (view self.old) payload.now) }
        ensures kept { view self.new ≡ kept (view self.old) (fed (view self.old) payload.now) };
}
