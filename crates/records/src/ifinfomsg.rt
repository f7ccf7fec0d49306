ghost use Rattle.std.specs.Prelude.{◌≡◌};
ghost use Rattle.records.specs.Fields.{ifinfomsg_bytes, ifinfomsg_of, IfinfomsgFits};
ghost use Rattle.std.proofs.Common.{arith, rules};
ghost use Rattle.records.specs.WordsLemmas.{spelled, half_again, word_again, signed_again, le2_take, le4_take};
ghost use Rattle.std.proofs.lemmas.List.{get_or-take};

use crate::record::Record;

// The family header of a request about a network interface.
#[derive(Clone, Copy, PartialEq, Eq, Hash, Default, Debug)]
pub struct Ifinfomsg {
    pub family: u8,
    pub pad: u8,
    pub kind: u16,
    pub index: i32,
    pub flags: u32,
    pub change: u32,
}

impl Record for Ifinfomsg {
    ghost wide = { 16 };

    ghost bytes = { ifinfomsg_bytes };

    ghost of = { ifinfomsg_of };

    ghost fits = { IfinfomsgFits };

    ghost sized = { Prim.search rules };

    ghost decodes = { Prim.search rules };

    ghost encodes = { λ b e h.
        let p1 = half_again b h 2 (omega arith) in
        let p2 = signed_again b h 4 (omega arith) in
        let p3 = word_again b h 8 (omega arith) in
        let p4 = word_again b h 12 (omega arith) in
        let s = spelled b 16 e in
        cc };

    ghost front = { λ b.
        let a = get_or-take 16 b 0 0 (omega arith) in
        let c = get_or-take 16 b 1 0 (omega arith) in
        let p1 = le2_take 16 b 2 (omega arith) in
        let p2 = le4_take 16 b 4 (omega arith) in
        let p3 = le4_take 16 b 8 (omega arith) in
        let p4 = le4_take 16 b 12 (omega arith) in
        cc };

    fn width() -> usize {
        16
    }

    fn decode(input: &[u8]) -> Option<(Ifinfomsg, &[u8])> {
        let [
            family,
            pad,
            k0,
            k1,
            i0,
            i1,
            i2,
            i3,
            f0,
            f1,
            f2,
            f3,
            c0,
            c1,
            c2,
            c3,
            rest @ ..,
        ] = input
        else {
            return None;
        };
        let head = Ifinfomsg {
            family: *family,
            pad: *pad,
            kind: u16::from_le_bytes([*k0, *k1]),
            index: i32::from_le_bytes([*i0, *i1, *i2, *i3]),
            flags: u32::from_le_bytes([*f0, *f1, *f2, *f3]),
            change: u32::from_le_bytes([*c0, *c1, *c2, *c3]),
        };
        Some((head, rest))
    }

    fn encode(&self, out: &mut [u8]) -> Option<usize> {
        let Ifinfomsg {
            family,
            pad,
            kind,
            index,
            flags,
            change,
        } = *self;
        let [k0, k1] = kind.to_le_bytes();
        let [i0, i1, i2, i3] = index.to_le_bytes();
        let [f0, f1, f2, f3] = flags.to_le_bytes();
        let [c0, c1, c2, c3] = change.to_le_bytes();
        *out.first_chunk_mut()? = [
            family, pad, k0, k1, i0, i1, i2, i3, f0, f1, f2, f3, c0, c1, c2, c3,
        ];
        Some(16)
    }
}
