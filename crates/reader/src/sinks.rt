ghost use Rattle.std.specs.Prelude.{◌≡◌, ◌≤◌, length};
ghost use Rattle.reader.specs.Names.{matching};
ghost use Rattle.reader.specs.Matches.{raised, head_of, match_of, match_if, hit_of, Search, matches_of, searched, echoed, echo as echo_of, passed_over};
ghost use Rattle.reader.specs.declared.echo.Echo.{Echo as Echoed};

use crate::classify::behind;
use crate::echo::Echo;
use crate::fault::{MessageFault, TurnFault};
use crate::matches::{Match, MatchTable};
use crate::sink::Sink;
use crate::visitors::is_named;
use records::record::Record;
use records::tcmsg::Tcmsg;

// The family header of a filter message.
fn head_of(payload: &[u8]) -> Result<Tcmsg, TurnFault>
    ensures { result ≡ head_of payload.now }
{
    Tcmsg::decode(payload)
        .map(|(head, _)| head)
        .ok_or(TurnFault::FilterShort(payload.len()))
}

// The filter that a family header names: the priority is the upper half of info.
fn match_of(head: &Tcmsg) -> Match
    ensures { result ≡ match_of head.now }
{
    Match {
        priority: (head.info >> 16) as u16,
        handle: head.handle,
    }
}

// Handle 0 heads a priority and is no filter.
fn match_if(head: &Tcmsg, named: bool) -> Option<Match>
    ensures { result ≡ match_if head.now named }
{
    (named && head.handle != 0).then(|| match_of(head))
}

// Whether the row of a filter message has this name, with a fault of the row carried up whole.
fn named_in(row: &[u8], name: &[u8]) -> Result<bool, MessageFault>
    ensures { result ≡ raised (matching name.now row.now) }
{
    Ok(is_named(row, name)?)
}

// The match in the payload of a filter message, if it is one.
fn hit_of(payload: &[u8], name: &[u8]) -> Result<Option<Match>, TurnFault>
    ensures { result ≡ hit_of name.now payload.now }
{
    let head = head_of(payload)?;
    let named = named_in(behind(payload, 20), name)?;
    Ok(match_if(&head, named))
}

// Gathers the filters that have this name.
#[derive(Drop)]
pub struct Finder<'a> {
    pub name: &'a [u8],
    pub table: MatchTable,
}

impl<'a> Sink for Finder<'a> {
    ghost Table = { Search };

    ghost view = { λ s. record { name = s.name.now; matches = matches_of s.table } };

    ghost fed = { searched };

    fn filter(&mut self, payload: &[u8]) -> Result<(), TurnFault> {
        // no `map_or`: a closure that pushes is no plainer
        match hit_of(payload, self.name)? {
            Some(found) => self.table.push(found),
            None => Ok(()),
        }
    }
}

impl Sink for Echo {
    ghost Table = { Echoed };

    ghost view = { λ s. s };

    ghost fed = { echoed };

    fn filter(&mut self, payload: &[u8]) -> Result<(), TurnFault> {
        let head = head_of(payload)?;
        *self = match *self {
            Echo::Nothing => Echo::One(match_of(&head)),
            Echo::One(_) | Echo::Several => Echo::Several,
        };
        Ok(())
    }
}

impl Echo {
    // What was echoed, at the reply's end.
    pub fn answer(self) -> Result<Match, TurnFault>
        ensures { result ≡ echo_of self }
    {
        match self {
            Echo::One(found) => Ok(found),
            Echo::Nothing => Err(TurnFault::NoFilter),
            Echo::Several => Err(TurnFault::SeveralFilters),
        }
    }
}

// Waits for an acknowledgement alone.
#[derive(Drop)]
pub struct Acknowledgement;

impl Sink for Acknowledgement {
    ghost Table = { Unit {0} };

    ghost view = { λ _. tt };

    ghost fed = { passed_over };

    fn filter(&mut self, _payload: &[u8]) -> Result<(), TurnFault> {
        Ok(())
    }
}
