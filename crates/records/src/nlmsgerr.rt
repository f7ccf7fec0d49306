ghost use Rattle.std.specs.Prelude.{◌≡◌, drop};
ghost use Rattle.records.specs.Fields.{nlmsgerr_bytes, nlmsgerr_of, NlmsgerrFits};
ghost use Rattle.std.proofs.Common.{arith, rules};
ghost use Rattle.std.proofs.lemmas.List.{length-drop, drop-take};
ghost use Rattle.records.specs.WordsLemmas.{signed_again, bytes_drop, le4_take};
ghost use Rattle.records.specs.Headers.{header_again, header_front};
ghost use Rattle.records.specs.NlmsgerrRecordLemmas.{four};

use crate::nlmsghdr::Nlmsghdr;
use crate::record::Record;

// What an error message begins with: a status, 0 or a negated error number, and the header of the message it answers.
#[derive(Clone, Copy, PartialEq, Eq, Hash, Default, Debug)]
pub struct Nlmsgerr {
    pub status: i32,
    pub header: Nlmsghdr,
}

impl Record for Nlmsgerr {
    ghost wide = { 20 };

    ghost bytes = { nlmsgerr_bytes };

    ghost of = { nlmsgerr_of };

    ghost fits = { NlmsgerrFits };

    ghost sized = { Prim.search rules };

    ghost decodes = { Prim.search rules };

    ghost encodes = { λ b e h.
        let p = signed_again b h 0 (omega arith) in
        let l = length-drop 4 b in
        let q = header_again (drop 4 b) (omega arith) (bytes_drop 4 b h) in
        let s = four b (omega arith) in
        cc };

    ghost front = { λ b.
        let p = le4_take 20 b 0 (omega arith) in
        let q = drop-take 4 16 b in
        let r = header_front (drop 4 b) in
        cc };

    fn width() -> usize {
        20
    }

    fn decode(input: &[u8]) -> Option<(Nlmsgerr, &[u8])> {
        let [s0, s1, s2, s3, rest @ ..] = input else {
            return None;
        };
        let status = i32::from_le_bytes([*s0, *s1, *s2, *s3]);
        let (header, rest) = Nlmsghdr::decode(rest)?;
        Some((Nlmsgerr { status, header }, rest))
    }

    fn encode(&self, out: &mut [u8]) -> Option<usize> {
        let Nlmsgerr { status, header } = *self;
        let (first, rest) = out.split_first_chunk_mut()?;
        let taken = header.encode(rest)?;
        *first = status.to_le_bytes();
        Some(4 + taken)
    }
}
