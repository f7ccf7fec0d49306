ghost use Rattle.std.specs.Prelude.{◌≡◌, ℕ, ◌<◌, true, length, slice_index_or};
ghost use Rattle.requests.specs.Asks.{asks};

use crate::dissect::dissect;
use crate::show::{Asked, show_part};
use requests::request::Request;
use std::io;

// What the buffer is filled with, so that a byte that was written shows.
const PATTERN: u8 = 0xa5;

// What became of a line.
#[derive(Clone, Copy)]
pub(crate) enum Outcome {
    Written,
    // a recorded reply was read to its end
    Read,
    Refused,
    NotUnderstood,
}

// Whether each byte is the pattern still.
fn untouched(bytes: &[u8]) -> bool
    ensures yes { result ≡ true → (k : ℕ) → k < length «bytes».now → slice_index_or «bytes».now k 0 ≡ 0xa5 }
    ensures no { ((k : ℕ) → k < length «bytes».now → slice_index_or «bytes».now k 0 ≡ 0xa5) → result ≡ true }
{
    bytes.iter().all(|byte| *byte == PATTERN)
}

// Whether two requests agree in each field.
fn same_request(a: Request<'_>, b: Request<'_>) -> bool
    ensures { result ≡ true → asks a.entry ≡ asks b.entry }
{
    a == b
}

// Reads the bytes back, and says whether they give the request that was asked.
fn show_read_back(rt: &HostRuntime, asked: Request<'_>, bytes: &[u8]) -> io::Result<()> {
    match Request::read(bytes) {
        Some(back) => {
            let verdict = if same_request(asked, back) {
                "the request that was asked"
            } else {
                "NOT THE REQUEST THAT WAS ASKED"
            };
            println!(rt; "  read back: {}: {verdict}", Asked(back))
        }
        None => println!(rt; "  read back: NOTHING"),
    }
}

// Shows a request that was written at the front of a buffer.
fn show_written(
    rt: &HostRuntime,
    asked: Request<'_>,
    bytes: &[u8],
    behind: &[u8],
) -> io::Result<()> {
    let len = bytes.len();
    let more = behind.len();
    if more == 0 {
        println!(rt; "  written: {len} bytes, the whole buffer")?;
    } else {
        let state = if untouched(behind) {
            "not altered"
        } else {
            "ALTERED"
        };
        println!(rt; "  written: {len} bytes; the {more} behind them are {state}")?;
    }
    let parts = dissect(rt.alloc(), bytes)?;
    for part in &parts {
        show_part(rt, part)?;
    }
    show_read_back(rt, asked, bytes)
}

// Writes a request into a buffer of `room` bytes, and shows what came of it.
pub(crate) fn try_out(rt: &HostRuntime, asked: Request<'_>, room: usize) -> io::Result<Outcome> {
    let mut buffer = vec![in rt.alloc(); PATTERN; room]?;
    match asked.write(buffer.as_mut_slice()) {
        Ok(len) => {
            let (bytes, behind) = buffer.as_slice().split_at(len);
            show_written(rt, asked, bytes, behind)?;
            Ok(Outcome::Written)
        }
        Err(fault) => {
            let state = if untouched(buffer.as_slice()) {
                "buffer not altered"
            } else {
                "BUFFER ALTERED"
            };
            println!(rt; "  refused, {fault}; {state}")?;
            Ok(Outcome::Refused)
        }
    }
}
