ghost use Rattle.std.specs.Prelude.{◌≡◌, true, false, IsTrue};
ghost use Rattle.reader.specs.Datagrams.{messages};
ghost use Rattle.reader.specs.Replies.{at, heeded, onwards, took, closing, closed, read_of, over};
ghost use Rattle.reader.specs.Turns.{moved};
ghost use Rattle.reader.specs.declared.stage.Stage.TheVariants.{Going};

use crate::class::Class;
use crate::classify::class_of;
use crate::fault::{MessageFault, TurnFault};
use crate::messages::Messages;
use crate::sink::Sink;
use crate::stage::Stage;
use records::numbers::{LONGEST_DATAGRAM, NLM_F_MULTI};

// A request and its reply. It is begun with a request that was written, takes the datagrams of the reply one by one, and is closed as
// unsent, as receive failed, or as read. It cannot be let go otherwise: its `drop` asks that it is spent, and only the three calls that
// close it, which do not hand it back, make it so.
pub struct Turn {
    stage: Stage,
    request: usize,
    spent: bool,
}

impl Drop for Turn {
    fn drop(self)
        requires { IsTrue self.spent }
    {
        let Turn {
            stage: _,
            request: _,
            spent: _,
        } = self;
    }
}

impl Turn {
    // Begins a turn for a request of so many bytes.
    pub fn begin(request: usize) -> Turn
        ensures { result ≡ record { stage = Going; request = request; spent = false } }
    {
        Turn {
            stage: Stage::Going,
            request,
            spent: false,
        }
    }

    // Whether the reply has come to its end or a fault: then it ignores further datagrams.
    pub fn has_ended(&self) -> bool
        ensures { result ≡ over self.now.stage }
    {
        !matches!(self.stage, Stage::Going)
    }

    // Closes a turn whose request was not sent.
    pub fn unsent(mut self) -> usize
        ensures { result ≡ self.request }
    {
        self.spent = true;
        self.request
    }

    // Closes a turn whose reply could not be received to its end.
    // It does what `unsent` does: a rule of the project asks for both calls, by which a caller says which of the two happened.
    pub fn receive_failed(mut self) -> usize
        ensures { result ≡ self.request }
    {
        self.spent = true;
        self.request
    }

    // Closes a turn as read, with the fault that its reply came to, or 12 if it has not ended.
    pub fn read(mut self) -> Result<usize, TurnFault>
        ensures { result ≡ read_of self.stage self.request }
    {
        self.spent = true;
        match self.stage {
            Stage::Ended => Ok(self.request),
            Stage::Faulted(fault) => Err(fault),
            Stage::Going => Err(TurnFault::Early),
        }
    }

    // One message, by its class and the stage together.
    fn heed<S: Sink>(&mut self, class: Class, payload: &[u8], sink: &mut S)
        ensures state { at self.new.stage (S.Sink.view sink.new) ≡ heeded S.Sink.fed self.old.stage (S.Sink.view sink.old) class payload.now }
        ensures moved { self.new ≡ moved self.old self.new.stage }
    {
        match (class, self.stage) {
            (_, Stage::Ended | Stage::Faulted(_)) => {}
            (Class::Refused(fault), _) => self.stage = Stage::Faulted(TurnFault::Message(fault)),
            (Class::Done, _) => self.stage = Stage::Ended,
            (Class::Filter, _) => {
                if let Err(fault) = sink.filter(payload) {
                    self.stage = Stage::Faulted(fault);
                }
            }
            (Class::Passed, _) => {}
        }
    }

    // The messages of a datagram in turn: whether the last bears NLM_F_MULTI.
    fn walk<S: Sink>(&mut self, datagram: &[u8], sink: &mut S) -> Result<bool, MessageFault>
        ensures state { onwards S.Sink.fed (at self.old.stage (S.Sink.view sink.old)) true (messages datagram.now) ≡ closed (at self.new.stage (S.Sink.view sink.new)) result }
        ensures moved { self.new ≡ moved self.old self.new.stage }
    {
        let mut multi = true;
        for next in Messages::new(datagram) {
            let message = next?;
            let class = class_of(message.header.kind, message.data);
            self.heed(class, message.data, sink);
            multi = message.header.flags & NLM_F_MULTI == NLM_F_MULTI;
        }
        Ok(multi)
    }

    // A datagram that ends on a message without NLM_F_MULTI ends the reply, and so does a fault.
    fn close(&mut self, read: Result<bool, MessageFault>)
        ensures { self.new ≡ moved self.old (closing self.old.stage read) }
    {
        match (read, self.stage) {
            (_, Stage::Ended | Stage::Faulted(_)) => {}
            (Err(fault), _) => self.stage = Stage::Faulted(TurnFault::Message(fault)),
            (Ok(false), _) => self.stage = Stage::Ended,
            (Ok(true), _) => {}
        }
    }

    // Takes one datagram of the reply. A turn that has ended ignores it.
    pub fn take<S: Sink>(&mut self, datagram: &[u8], sink: &mut S)
        ensures state { at self.new.stage (S.Sink.view sink.new) ≡ took S.Sink.fed (at self.old.stage (S.Sink.view sink.old)) datagram.now }
        ensures moved { self.new ≡ moved self.old self.new.stage }
    {
        let read = if datagram.len() > LONGEST_DATAGRAM {
            Err(MessageFault::Long(datagram.len()))
        } else {
            self.walk(datagram, sink)
        };
        self.close(read);
    }
}
