ghost use Rattle.std.specs.Prelude.{◌≡◌, length};
ghost use Rattle.std.specs.Iterator.{at_most};
ghost use Rattle.std.specs.Result.{result_transpose};
ghost use Rattle.records.specs.Layouts.{MessageAt};
ghost use Rattle.reader.specs.Walks.{seen, remaining as left_by, Next, Reads, Stops};
ghost use Rattle.reader.specs.Datagrams.{message_step, message_of};

use crate::attribute::NetlinkMessage;
use crate::classify::behind;
use crate::fault::MessageFault;
use records::align::align;
use records::nlmsghdr::Nlmsghdr;
use records::record::Record;

// A datagram of messages, or what is left of it.
#[derive(Drop)]
pub struct Messages<'a> {
    rest: &'a [u8],
}

impl<'a> Messages<'a> {
    // Read to its end, a datagram gives the messages that it is laid out as, and no others; and where it stops, it is laid out so up to a fault.
    pub fn new(datagram: &'a [u8]) -> Messages<'a>
        ensures rest { result.rest.now ≡ datagram.now }
        ensures reads { Reads message_step MessageAt }
        ensures stops { Stops message_step MessageAt }
    {
        Messages { rest: datagram }
    }

    // Takes one message off the front. At the end and at a fault nothing is taken.
    pub fn step(&mut self) -> Result<Option<NetlinkMessage<'a>>, MessageFault>
        ensures step { message_step self.old.rest.now ≡ seen message_of (result_transpose result) self.new.rest.now }
        ensures left { self.new.rest.now ≡ left_by self.old.rest.now (message_step self.old.rest.now) }
    {
        let all = self.rest;
        if all.is_empty() {
            return Ok(None);
        }
        let (header, _) = Nlmsghdr::decode(all).ok_or(MessageFault::Cut(all.len()))?;
        let len = header.len as usize;
        let data = all.get(16..len).ok_or(MessageFault::Length {
            len: header.len,
            left: all.len(),
        })?;
        self.rest = behind(all, align(header.len));
        Ok(Some(NetlinkMessage { header, data }))
    }

    // The same, with the answer as an iterator has it. Asked again at a fault, it gives that fault again; a `for`, and whatever else goes
    // by the Iterator below, ends behind it.
    pub fn next(&mut self) -> Option<Result<NetlinkMessage<'a>, MessageFault>>
        ensures step { message_step self.old.rest.now ≡ seen message_of result self.new.rest.now }
        ensures left { self.new.rest.now ≡ left_by self.old.rest.now (message_step self.old.rest.now) }
    {
        self.step().transpose()
    }
}

impl<'a> Iterator for Messages<'a> {
    type Item = Result<NetlinkMessage<'a>, MessageFault>;

    ghost next_gives = { λ s r t. Next message_of message_step s.rest.now r t.rest.now };

    ghost remaining = { λ s. at_most (length s.rest.now) };

    // The next message. A fault is the last that is handed out.
    // As for `NlAttrs`: one type for both is no plainer, as it takes a trait with the step, what it means, and two laws.
    fn next(&mut self) -> Option<Result<NetlinkMessage<'a>, MessageFault>> {
        let next = self.step();
        if next.is_err() {
            self.rest = &[];
        }
        next.transpose()
    }
}
