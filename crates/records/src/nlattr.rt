ghost use Rattle.std.specs.Prelude.{◌≡◌};
ghost use Rattle.records.specs.Fields.{nlattr_bytes, nlattr_of, NlattrFits};
ghost use Rattle.std.proofs.Common.{arith, rules};
ghost use Rattle.records.specs.WordsLemmas.{spelled, half_again, le2_take};

use crate::record::Record;

// The header of an attribute.
#[derive(Clone, Copy, PartialEq, Eq, Hash, Default, Debug)]
pub struct Nlattr {
    pub len: u16,
    pub kind: u16,
}

impl Record for Nlattr {
    ghost wide = { 4 };

    ghost bytes = { nlattr_bytes };

    ghost of = { nlattr_of };

    ghost fits = { NlattrFits };

    ghost sized = { Prim.search rules };

    ghost decodes = { Prim.search rules };

    ghost encodes = { λ b e h.
        let p0 = half_again b h 0 (omega arith) in
        let p1 = half_again b h 2 (omega arith) in
        let s = spelled b 4 e in
        cc };

    ghost front = { λ b.
        let p0 = le2_take 4 b 0 (omega arith) in
        let p1 = le2_take 4 b 2 (omega arith) in
        cc };

    fn width() -> usize {
        4
    }

    fn decode(input: &[u8]) -> Option<(Nlattr, &[u8])> {
        let [l0, l1, k0, k1, rest @ ..] = input else {
            return None;
        };
        let head = Nlattr {
            len: u16::from_le_bytes([*l0, *l1]),
            kind: u16::from_le_bytes([*k0, *k1]),
        };
        Some((head, rest))
    }

    fn encode(&self, out: &mut [u8]) -> Option<usize> {
        let Nlattr { len, kind } = *self;
        let [l0, l1] = len.to_le_bytes();
        let [k0, k1] = kind.to_le_bytes();
        *out.first_chunk_mut()? = [l0, l1, k0, k1];
        Some(4)
    }
}
