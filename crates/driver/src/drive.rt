ghost use Rattle.std.specs.Prelude.{◌≡◌, ◌≤◌};
ghost use Rattle.reader.specs.Replies.{at};
ghost use Rattle.driver.specs.Exchanges.{Replied, Sends, Told, read_as};

use crate::exchange::Exchange;
use crate::fault::ExchangeFault;
use hosts::host::Host;
use reader::sink::Sink;
use reader::turn::Turn;

const MOST: u32 = 4096;

// Opens the host, and sends it the request.
fn ask<H: Host>(host: &mut H, request: &[u8]) -> Result<(), ExchangeFault>
    ensures { Sends H.Host.did request.now host.old result host.new }
{
    host.open().map_err(ExchangeFault::Open)?;
    host.send(request).map_err(ExchangeFault::Send)
}

// Closes a turn as read.
fn read(turn: Turn) -> Result<(), ExchangeFault>
    ensures { result ≡ read_as turn.stage }
{
    turn.read()?;
    Ok(())
}

// Receives the datagrams of a reply until it has ended, a receive fails, or 4,096 came, and closes its turn.
#[tactic(auto, using(crate::proofs::Turning::ways_out))]
fn receive<H: Host, S: Sink>(
    host: &mut H,
    mut turn: Turn,
    sink: &mut S,
    buffer: &mut [u8],
) -> Exchange
    ensures replied { Replied H.Host.did S.Sink.fed (at turn.stage (S.Sink.view sink.old)) host.old buffer.old result.outcome (S.Sink.view sink.new) result.datagrams host.new buffer.new }
    ensures bound { result.datagrams ≤ 4096 }
{
    for datagrams in 0..MOST {
        if turn.has_ended() {
            return Exchange {
                datagrams,
                outcome: read(turn),
            };
        }
        match host.receive(buffer) {
            Ok(n) => turn.take(&buffer[..n], sink),
            Err(errno) => {
                turn.receive_failed();
                return Exchange {
                    datagrams,
                    outcome: Err(ExchangeFault::Receive(errno)),
                };
            }
        }
    }
    Exchange {
        datagrams: MOST,
        outcome: read(turn),
    }
}

// Asks a request of a host, and receives its reply into the buffer until it has ended; the filter messages go to the sink. A turn is
// begun for it, and closed on every way out.
#[tactic(auto, using(crate::proofs::Turning::told_unasked))]
pub fn exchange<H: Host, S: Sink>(
    host: &mut H,
    request: &[u8],
    sink: &mut S,
    buffer: &mut [u8],
) -> Exchange
    ensures told { Told H.Host.did S.Sink.fed request.now (S.Sink.view sink.old) host.old buffer.old result.outcome (S.Sink.view sink.new) result.datagrams host.new buffer.new }
    ensures bound { result.datagrams ≤ 4096 }
{
    let turn = Turn::begin(request.len());
    match ask(host, request) {
        Ok(()) => receive(host, turn, sink, buffer),
        Err(fault) => {
            turn.unsent();
            Exchange {
                datagrams: 0,
                outcome: Err(fault),
            }
        }
    }
}
