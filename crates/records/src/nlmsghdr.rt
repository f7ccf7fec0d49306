ghost use Rattle.std.specs.Prelude.{◌≡◌};
ghost use Rattle.records.specs.Fields.{nlmsghdr_bytes, nlmsghdr_of, NlmsghdrFits};
ghost use Rattle.records.specs.Headers.{header_again, header_front};
ghost use Rattle.std.proofs.Common.{rules};

use crate::record::Record;

// The header of a message.
#[derive(Clone, Copy, PartialEq, Eq, Hash, Default, Debug)]
pub struct Nlmsghdr {
    pub len: u32,
    pub kind: u16,
    pub flags: u16,
    pub seq: u32,
    pub pid: u32,
}

impl Record for Nlmsghdr {
    ghost wide = { 16 };

    ghost bytes = { nlmsghdr_bytes };

    ghost of = { nlmsghdr_of };

    ghost fits = { NlmsghdrFits };

    ghost sized = { Prim.search rules };

    ghost decodes = { Prim.search rules };

    ghost encodes = { λ b e h. header_again b e h };

    ghost front = { λ b. header_front b };

    fn width() -> usize {
        16
    }

    fn decode(input: &[u8]) -> Option<(Nlmsghdr, &[u8])> {
        let [
            l0,
            l1,
            l2,
            l3,
            k0,
            k1,
            f0,
            f1,
            s0,
            s1,
            s2,
            s3,
            p0,
            p1,
            p2,
            p3,
            rest @ ..,
        ] = input
        else {
            return None;
        };
        let head = Nlmsghdr {
            len: u32::from_le_bytes([*l0, *l1, *l2, *l3]),
            kind: u16::from_le_bytes([*k0, *k1]),
            flags: u16::from_le_bytes([*f0, *f1]),
            seq: u32::from_le_bytes([*s0, *s1, *s2, *s3]),
            pid: u32::from_le_bytes([*p0, *p1, *p2, *p3]),
        };
        Some((head, rest))
    }

    fn encode(&self, out: &mut [u8]) -> Option<usize> {
        let Nlmsghdr {
            len,
            kind,
            flags,
            seq,
            pid,
        } = *self;
        let [l0, l1, l2, l3] = len.to_le_bytes();
        let [k0, k1] = kind.to_le_bytes();
        let [f0, f1] = flags.to_le_bytes();
        let [s0, s1, s2, s3] = seq.to_le_bytes();
        let [p0, p1, p2, p3] = pid.to_le_bytes();
        *out.first_chunk_mut()? = [
            l0, l1, l2, l3, k0, k1, f0, f1, s0, s1, s2, s3, p0, p1, p2, p3,
        ];
        Some(16)
    }
}
