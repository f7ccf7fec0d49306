ghost use Rattle.std.specs.Prelude.{◌≡◌, ◌+◌, ◌<◌, ◌≤◌, length, MatchOption};
ghost use Rattle.std.specs.Option.{option_map};
ghost use Rattle.records.specs.Words.{le2, le4};
ghost use Rattle.requests.specs.Asks.{key_of, program_of};
ghost use Rattle.requests.specs.Handles.{bits_of};
ghost use Rattle.requests.specs.Back.{KeyFits, ClassFits, PickedOut};
ghost use Rattle.requests.specs.Places.{header_key, base_of, class_of, placed_program, Short, mode_of, descriptor_of, expected_of, placed_xdp};

use crate::handle::TcHandle;
use crate::mode::XdpMode;
use crate::request::{Key, Program, Request, SetXdp};
use records::ifinfomsg::Ifinfomsg;
use records::numbers::{
    TCA_BPF_CLASSID, XDP_FLAGS_DRV_MODE, XDP_FLAGS_HW_MODE, XDP_FLAGS_SKB_MODE,
};
use records::record::read;
use records::tcmsg::Tcmsg;

// The 16 and the 32 bits at a place; one function for both would be no plainer than these two lines each.
fn half(bytes: &[u8], at: usize) -> Option<u16>
    ensures { MatchOption result (length «bytes».now < at + 2) (λ h. (at + 2 ≤ length «bytes».now) × (h ≡ le2 «bytes».now at)) }
{
    let half = bytes.get(at..)?.first_chunk()?;
    Some(u16::from_le_bytes(*half))
}

fn word(bytes: &[u8], at: usize) -> Option<u32>
    ensures { MatchOption result (length «bytes».now < at + 4) (λ w. (at + 4 ≤ length «bytes».now) × (w ≡ le4 «bytes».now at)) }
{
    let word = bytes.get(at..)?.first_chunk()?;
    Some(u32::from_le_bytes(*word))
}

// The filter that a family header names.
pub(crate) fn key_of(header: &Tcmsg) -> Key
    ensures key { key_of result ≡ header_key header.now }
    ensures fits { KeyFits (key_of result) }
{
    Key {
        interface: header.ifindex.cast_unsigned(),
        parent: TcHandle::from(header.parent),
        priority: (header.info >> 16) as u16,
        handle: TcHandle::from(header.handle),
    }
}

// Where the options' descriptor stands, and the class before it.
fn class_of(bytes: &[u8]) -> Option<(usize, Option<TcHandle>)>
    ensures { MatchOption result (length «bytes».now < 56) (λ p. (p.0 ≡ base_of «bytes».now) × (option_map bits_of p.1 ≡ class_of «bytes».now) × (p.0 ≤ 56) × ClassFits (option_map bits_of p.1)) }
{
    if half(bytes, 50)? == TCA_BPF_CLASSID {
        let class = word(bytes, 52)?;
        Some((56, Some(TcHandle::from(class))))
    } else {
        Some((48, None))
    }
}

// The program of a new filter.
pub(crate) fn pick_program(bytes: &[u8]) -> Option<Program<'_>>
    ensures { MatchOption result (Short «bytes».now) (λ p. (program_of p ≡ placed_program «bytes».now) × ClassFits (program_of p).class) }
{
    let (base, class) = class_of(bytes)?;
    let descriptor = word(bytes, base + 4)?;
    let len = usize::from(half(bytes, base + 8)?).checked_sub(5)?;
    let start = base + 12;
    let name = bytes.get(start..start + len)?;
    Some(Program {
        descriptor,
        name,
        class,
    })
}

// Three of the flags hold the mode.
fn mode_of(flags: u32) -> XdpMode
    ensures { result ≡ mode_of flags }
{
    let flags = flags & (XDP_FLAGS_SKB_MODE | XDP_FLAGS_DRV_MODE | XDP_FLAGS_HW_MODE);
    XdpMode::ALL
        .iter()
        .find(|mode| mode.flags() == flags)
        .copied()
        .unwrap_or(XdpMode::Default)
}

// All bits set stand for no descriptor.
fn descriptor_of(word: u32) -> Option<u32>
    ensures { result ≡ descriptor_of word }
{
    (word != u32::MAX).then_some(word)
}

// The last attribute, which is left out where nothing is expected.
fn expected_of(bytes: &[u8]) -> Option<u32>
    ensures { result ≡ expected_of «bytes».now }
{
    word(bytes, 56)
}

// The request to set an interface's XDP program.
pub(crate) fn pick_set_xdp(bytes: &[u8]) -> Option<Request<'_>>
    ensures { MatchOption result (length «bytes».now < 52) (PickedOut (λ x. x ≡ placed_xdp «bytes».now)) }
{
    let (header, _) = read::<Ifinfomsg>(bytes, 16)?;
    let descriptor = descriptor_of(word(bytes, 40)?);
    let mode = mode_of(word(bytes, 48)?);
    Some(Request::SetXdp(SetXdp {
        interface: header.index.cast_unsigned(),
        descriptor,
        expected: expected_of(bytes),
        mode,
    }))
}
