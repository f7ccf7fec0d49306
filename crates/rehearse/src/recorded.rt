use crate::script::{Misread, hex_bytes};
use crate::show::Readable;
use crate::trial::Outcome;
use reader::echo::Echo;
use reader::fault::TurnFault;
use reader::matches::{Match, MatchTable};
use reader::reply::texts_of;
use reader::sink::Sink;
use reader::sinks::{Acknowledgement, Finder};
use reader::turn::Turn;
use std::alloc::Global;
use std::{fmt, io};

// Which request a recorded reply answers.
#[derive(Clone, Copy)]
pub(crate) enum Awaited<'a> {
    // set XDP, add clsact, removal
    Acknowledgement,
    // attach, replace
    Echo,
    // a listing, read for this name
    Matches(&'a str),
}

// What a reply says that was read to its end.
#[derive(Clone, Copy)]
enum Answer<'a> {
    Acknowledged,
    Echo(Match),
    // the matches with this name
    Matches(&'a str, MatchTable),
}

impl fmt::Display for Answer<'_> {
    fn fmt<W: fmt::Write>(&self, f: &mut fmt::Formatter<W>) -> fmt::Result {
        match self {
            Answer::Acknowledged => write!(f, "acknowledged"),
            Answer::Echo(found) => write!(f, "the echo of {found}"),
            Answer::Matches(name, table) => {
                write!(f, "{} with the name {name}", Count(table.len()))?;
                for found in table.as_slice() {
                    write!(f, "\n    {found}")?;
                }
                Ok(())
            }
        }
    }
}

// So many matches.
#[derive(Clone, Copy)]
struct Count(usize);

impl fmt::Display for Count {
    fn fmt<W: fmt::Write>(&self, f: &mut fmt::Formatter<W>) -> fmt::Result {
        match self.0 {
            0 => write!(f, "no match"),
            1 => write!(f, "1 match"),
            n => write!(f, "{n} matches"),
        }
    }
}

// A recorded reply, in its datagrams.
#[derive(Drop)]
pub(crate) struct Recorded<'a> {
    awaited: Awaited<'a>,
    datagrams: Vec<Vec<u8>>,
}

fn datagram<'a>(heap: Global, text: &'a str) -> Result<Vec<u8>, Misread<'a>> {
    match text {
        "-" => Ok(Vec::new(heap)),
        _ => hex_bytes(heap, text, Misread::Datagram(text)),
    }
}

impl<'a> Recorded<'a> {
    // The words after `reply`: what is awaited, for a listing the name, and the datagrams in hexadecimal.
    pub(crate) fn parse(heap: Global, words: &'a str) -> Result<Recorded<'a>, Misread<'a>> {
        let mut tokens = words.split_whitespace();
        let awaited = match tokens.next() {
            Some("acknowledgement") => Awaited::Acknowledgement,
            Some("echo") => Awaited::Echo,
            Some("listing") => Awaited::Matches(tokens.next().ok_or(Misread::NoName)?),
            Some(other) => return Err(Misread::UnknownReply(other)),
            None => return Err(Misread::NoReply),
        };
        let text = tokens.next().ok_or(Misread::NoReply)?;
        // no `try_collect`: it extends the list once for each datagram, which a reply of a million of them feels
        let mut datagrams = Vec::new(heap);
        text.split(',').try_for_each(|part| {
            datagrams
                .push(datagram(heap, part)?)
                .map_err(|_| Misread::NoMemory)
        })?;
        Ok(Recorded { awaited, datagrams })
    }

    pub(crate) fn play(&self, rt: &HostRuntime) -> io::Result<Outcome> {
        let (taken, answer) = match self.awaited {
            Awaited::Acknowledgement => self.read(Acknowledgement, |_| Ok(Answer::Acknowledged)),
            Awaited::Echo => self.read(Echo::Nothing, |echo| Ok(Answer::Echo(echo.answer()?))),
            Awaited::Matches(name) => self.read(
                Finder {
                    name: name.as_bytes(),
                    table: MatchTable::empty(),
                },
                |finder| Ok(Answer::Matches(name, finder.table)),
            ),
        };
        let all = self.datagrams.len();
        println!(rt; "  datagrams taken: {taken} of {all}")?;
        match answer {
            Ok(answer) => {
                println!(rt; "  read to its end: {answer}")?;
                Ok(Outcome::Read)
            }
            Err(fault) => self.show_fault(rt, fault),
        }
    }

    // Takes the datagrams in turn, until the reply has ended: how many, and what was read.
    fn read<S: Sink + Drop, F: FnOnce(S) -> Result<Answer<'a>, TurnFault>>(
        &self,
        mut sink: S,
        answer: F,
    ) -> (usize, Result<Answer<'a>, TurnFault>)
        requires { F.IsAlwaysCallable answer }
    {
        let mut turn = Turn::begin(0);
        // the reply may end before the datagrams do
        let taken = self
            .datagrams
            .iter()
            .map_while(|datagram| {
                (!turn.has_ended()).then(|| turn.take(datagram.as_slice(), &mut sink))
            })
            .count();
        (taken, turn.read().and(answer(sink)))
    }

    fn show_fault(&self, rt: &HostRuntime, fault: TurnFault) -> io::Result<Outcome> {
        println!(rt; "  refused, number {}: {fault}", fault.number())?;
        if fault.errno().is_some() {
            for datagram in &self.datagrams {
                show_texts(rt, datagram.as_slice())?;
            }
        }
        Ok(Outcome::Refused)
    }
}

// The texts of a refusal; a kernel sends one.
fn show_texts(rt: &HostRuntime, datagram: &[u8]) -> io::Result<()> {
    for text in texts_of(datagram).take(16) {
        println!(rt; "    text: \"{}\"", Readable(text))?;
    }
    Ok(())
}
