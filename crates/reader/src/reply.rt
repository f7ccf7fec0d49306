ghost use Rattle.std.specs.Prelude.{◌≡◌, List, ℕ};
ghost use Rattle.std.specs.Option.{option_copied, unwrap_or};
ghost use Rattle.reader.specs.Classes.{class_of};
ghost use Rattle.reader.specs.Datagrams.{messages as messages_of, message_of};
ghost use Rattle.reader.specs.Cuts.{Uncut};
ghost use Rattle.reader.specs.Replies.{at, took, read_of};
ghost use Rattle.reader.specs.declared.stage.Stage.TheVariants.{Going};
ghost use Rattle.reader.specs.Refused.{on_class, refused_row, row_behind};

use crate::attribute::NetlinkMessage;
use crate::class::Class;
use crate::classify::{behind, class_of};
use crate::fault::TurnFault;
use crate::messages::Messages;
use crate::sink::Sink;
use crate::texts::Texts;
use crate::turn::Turn;
use records::numbers::NLMSG_DONE;

// The attributes of a message that refuses.
fn row_behind<'a>(message: NetlinkMessage<'a>) -> &'a [u8]
    ensures { result.now ≡ row_behind (message_of message.entry) }
{
    let before = if message.header.kind == NLMSG_DONE {
        4
    } else {
        20
    };
    behind(message.data, before)
}

// The same, if the message refuses.
fn row_if_refused<'a>(message: NetlinkMessage<'a>) -> Option<&'a [u8]>
    ensures { let m = message_of message.entry in (later : List ℕ) → on_class (class_of m.kind m.payload) (row_behind m) later ≡ unwrap_or (option_copied result) later }
{
    match class_of(message.header.kind, message.data) {
        Class::Refused(_) => Some(row_behind(message)),
        _ => None,
    }
}

// The texts of the refusal in a reply, as parts of the buffer that its last datagram was received into. On any other buffer this is
// safe too: there may be no texts then, or others.
pub fn texts_of(buffer: &[u8]) -> Texts<'_>
    ensures { result.row.rest.now ≡ refused_row (messages_of buffer.now).found }
{
    let row = Messages::new(buffer).find_map(|next| next.ok().and_then(row_if_refused));
    Texts::new(row.unwrap_or(&[]))
}

// A whole turn whose reply is one datagram.
pub fn read_alone<S: Sink>(
    request: usize,
    datagram: &[u8],
    sink: &mut S,
) -> Result<usize, TurnFault>
    ensures answer { result ≡ read_of (took S.Sink.fed (at Going (S.Sink.view sink.old)) datagram.now).stage request }
    ensures table { S.Sink.view sink.new ≡ (took S.Sink.fed (at Going (S.Sink.view sink.old)) datagram.now).table }
{
    let mut turn = Turn::begin(request);
    turn.take(datagram, sink);
    turn.read()
}

// How a listing is cut into datagrams makes no difference, to whatever table it is read.
pub fn cut_at_will<S: Sink>(_sink: &S)
    ensures { Uncut S.Sink.fed }
{}
