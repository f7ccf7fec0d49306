// Rehearses requests and replies: reads a script, writes each request that it asks for and shows the bytes, and reads each recorded
// reply and shows what it says.

#![tactic(auto)]

mod dissect;
mod recorded;
mod script;
mod show;
mod trial;

use recorded::Recorded;
use script::{Command, Misread};
use show::Echo;
use std::io;
use trial::{Outcome, try_out};

// Why a line comes to no outcome of its own.
enum Stop<'a> {
    Misread(Misread<'a>),
    Output(io::Error),
}

// By hand: a stop is no error that prints itself, as a derive of its conversions would have it.
impl<'a> From<Misread<'a>> for Stop<'a> {
    fn from(misread: Misread<'a>) -> Stop<'a> {
        Stop::Misread(misread)
    }
}

impl<'a> From<io::Error> for Stop<'a> {
    fn from(error: io::Error) -> Stop<'a> {
        Stop::Output(error)
    }
}

// How many lines came to each outcome. No map by outcome: `show` calls each count by its name.
#[derive(Clone, Copy, Default)]
struct Tally {
    written: u64,
    read: u64,
    refused: u64,
    not_understood: u64,
}

impl Tally {
    fn count(&mut self, outcome: Outcome) {
        let count = match outcome {
            Outcome::Written => &mut self.written,
            Outcome::Read => &mut self.read,
            Outcome::Refused => &mut self.refused,
            Outcome::NotUnderstood => &mut self.not_understood,
        };
        *count = count.saturating_add(1);
    }

    fn show(&self, rt: &HostRuntime) -> io::Result<()> {
        let Tally {
            written,
            read,
            refused,
            not_understood,
        } = *self;
        println!(rt;
            "requests written: {written}; replies read: {read}; refused: {refused}; lines not understood: {not_understood}"
        )
    }
}

fn perform<'a>(rt: &HostRuntime, line: &'a str) -> Result<Outcome, Stop<'a>> {
    if let Some(words) = line.strip_prefix("reply ") {
        let recorded = Recorded::parse(rt.alloc(), words)?;
        return Ok(recorded.play(rt)?);
    }
    let command = Command::parse(line)?;
    let name = command.name(rt.alloc())?;
    let request = command.request(name.as_slice())?;
    Ok(try_out(rt, request, command.room())?)
}

// Performs one line of the script; none is asked for by an empty line or a comment, which is shown as a heading.
fn rehearse(rt: &HostRuntime, number: u64, line: &str) -> io::Result<Option<Outcome>> {
    let line = line.trim();
    if line.is_empty() {
        return Ok(None);
    }
    if line.starts_with('#') {
        println!(rt; "{line}")?;
        return Ok(None);
    }
    println!(rt; "line {number}: {}", Echo(line))?;
    let outcome = match perform(rt, line) {
        Ok(outcome) => outcome,
        Err(Stop::Misread(misread)) => {
            println!(rt; "  not understood: {misread}")?;
            Outcome::NotUnderstood
        }
        Err(Stop::Output(error)) => return Err(error),
    };
    println!(rt; "")?;
    Ok(Some(outcome))
}

// Passes over a line that is not text; any other error of the input ends the program.
fn pass_over(rt: &HostRuntime, number: u64, error: io::Error) -> io::Result<Option<Outcome>> {
    if error.kind() != io::ErrorKind::InvalidData {
        return Err(error);
    }
    println!(rt; "line {number}:\n  not understood: it is not text in UTF-8\n")?;
    Ok(Some(Outcome::NotUnderstood))
}

fn main(rt: HostRuntime) -> io::Result<()> {
    let mut tally = Tally::default();
    for (number, line) in (1u64..).zip(rt.lines(rt.alloc())) {
        let outcome = match line {
            Ok(line) => rehearse(&rt, number, line.as_str())?,
            Err(error) => pass_over(&rt, number, error)?,
        };
        if let Some(outcome) = outcome {
            tally.count(outcome);
        }
    }
    tally.show(&rt)
}
