ghost use Rattle.std.specs.Prelude.{◌≡◌};
ghost use Rattle.records.specs.Fields.{tcmsg_bytes, tcmsg_of, TcmsgFits};
ghost use Rattle.std.proofs.Common.{arith, rules};
ghost use Rattle.records.specs.WordsLemmas.{spelled, half_again, word_again, signed_again, le2_take, le4_take};
ghost use Rattle.std.proofs.lemmas.List.{get_or-take};

use crate::record::Record;

// The family header of a traffic control request.
#[derive(Clone, Copy, PartialEq, Eq, Hash, Default, Debug)]
pub struct Tcmsg {
    pub family: u8,
    pub pad1: u8,
    pub pad2: u16,
    pub ifindex: i32,
    pub handle: u32,
    pub parent: u32,
    pub info: u32,
}

impl Record for Tcmsg {
    ghost wide = { 20 };

    ghost bytes = { tcmsg_bytes };

    ghost of = { tcmsg_of };

    ghost fits = { TcmsgFits };

    ghost sized = { Prim.search rules };

    ghost decodes = { Prim.search rules };

    ghost encodes = { λ b e h.
        let p1 = half_again b h 2 (omega arith) in
        let p2 = signed_again b h 4 (omega arith) in
        let p3 = word_again b h 8 (omega arith) in
        let p4 = word_again b h 12 (omega arith) in
        let p5 = word_again b h 16 (omega arith) in
        let s = spelled b 20 e in
        cc };

    ghost front = { λ b.
        let a = get_or-take 20 b 0 0 (omega arith) in
        let c = get_or-take 20 b 1 0 (omega arith) in
        let p1 = le2_take 20 b 2 (omega arith) in
        let p2 = le4_take 20 b 4 (omega arith) in
        let p3 = le4_take 20 b 8 (omega arith) in
        let p4 = le4_take 20 b 12 (omega arith) in
        let p5 = le4_take 20 b 16 (omega arith) in
        cc };

    fn width() -> usize {
        20
    }

    fn decode(input: &[u8]) -> Option<(Tcmsg, &[u8])> {
        let [
            family,
            pad1,
            q0,
            q1,
            i0,
            i1,
            i2,
            i3,
            h0,
            h1,
            h2,
            h3,
            p0,
            p1,
            p2,
            p3,
            n0,
            n1,
            n2,
            n3,
            rest @ ..,
        ] = input
        else {
            return None;
        };
        let head = Tcmsg {
            family: *family,
            pad1: *pad1,
            pad2: u16::from_le_bytes([*q0, *q1]),
            ifindex: i32::from_le_bytes([*i0, *i1, *i2, *i3]),
            handle: u32::from_le_bytes([*h0, *h1, *h2, *h3]),
            parent: u32::from_le_bytes([*p0, *p1, *p2, *p3]),
            info: u32::from_le_bytes([*n0, *n1, *n2, *n3]),
        };
        Some((head, rest))
    }

    fn encode(&self, out: &mut [u8]) -> Option<usize> {
        let Tcmsg {
            family,
            pad1,
            pad2,
            ifindex,
            handle,
            parent,
            info,
        } = *self;
        let [q0, q1] = pad2.to_le_bytes();
        let [i0, i1, i2, i3] = ifindex.to_le_bytes();
        let [h0, h1, h2, h3] = handle.to_le_bytes();
        let [p0, p1, p2, p3] = parent.to_le_bytes();
        let [n0, n1, n2, n3] = info.to_le_bytes();
        *out.first_chunk_mut()? = [
            family, pad1, q0, q1, i0, i1, i2, i3, h0, h1, h2, h3, p0, p1, p2, p3, n0, n1, n2, n3,
        ];
        Some(20)
    }
}
