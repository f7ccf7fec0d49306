ghost use Rattle.std.specs.Prelude.{◌≡◌, ℕ, ◌+◌, ◌<◌, ◌≤◌, List, ◌++◌, length, take, drop, MatchOption};
ghost use Rattle.records.specs.Words.{Bytes};

// A record of fixed width: fields in a fixed order, each number with its lowest byte first.
pub trait Record: Sized {
    // how many bytes it takes
    ghost wide: { ℕ };

    // its bytes, and the record that bytes begin with
    ghost bytes: { Self → List ℕ };

    ghost of: { List ℕ → Self };

    // each field is within its type, as it is in every value of the code
    ghost fits: { Self → Type 0 };

    fn width() -> usize
        ensures { result ≡ wide };

    // The record at the front and the bytes behind it; none where there are too few. Each record names its bytes in a
    // slice pattern, so that its layout is read off the code.
    fn decode(input: &[u8]) -> Option<(Self, &[u8])>
        ensures { MatchOption result (length input.now < wide) (λ p. (wide ≤ length input.now) × (p.0 ≡ of input.now) × (p.1.now ≡ drop wide input.now) × fits p.0) };

    // Writes the record at the front and says how many bytes it took; none, and nothing written, where there are too few.
    fn encode(&self, out: &mut [u8]) -> Option<usize>
        ensures { MatchOption result ((length out.old < wide) × (out.new ≡ out.old)) (λ n. (n ≡ wide) × (wide ≤ length out.old) × (out.new ≡ bytes self.now ++ drop wide out.old) × fits self.now) };

    ghost sized: { (x : Self) → length (bytes x) ≡ wide };

    ghost decodes: { (x : Self) → fits x → of (bytes x) ≡ x };

    ghost encodes: { (b : List ℕ) → length b ≡ wide → Bytes b → bytes (of b) ≡ b };

    ghost front: { (b : List ℕ) → of (take wide b) ≡ of b };
}

// Reads the record at place `at`, and hands out the bytes behind it; none where they are too few.
// What is read is what the bytes say: written again it gives those very bytes.
pub fn read<R: Record>(input: &[u8], at: usize) -> Option<(R, &[u8])>
    ensures { MatchOption result (length input.now < at + R.wide) (λ p. R.fits p.0 × (p.0 ≡ R.of (drop at input.now)) × (input.now ≡ take at input.now ++ (R.bytes p.0 ++ p.1.now))) }
{
    R::decode(input.get(at..)?)
}

// Writes a record at place `at` and says where it ends; none, and nothing written, where there is too little room.
// Read from there it gives the same record; all other bytes stay.
pub fn write<R: Record>(record: &R, out: &mut [u8], at: usize) -> Option<usize>
    ensures { MatchOption result ((length out.old < at + R.wide) × (out.new ≡ out.old)) (λ e. (e ≡ at + R.wide) × (e ≤ length out.old) × R.fits «record».now × (out.new ≡ take at out.old ++ (R.bytes «record».now ++ drop (at + R.wide) out.old)) × (R.of (drop at out.new) ≡ «record».now)) }
{
    let (_, rest) = out.split_at_mut_checked(at)?;
    let taken = record.encode(rest)?;
    Some(at + taken)
}
