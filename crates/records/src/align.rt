ghost use Rattle.std.specs.Prelude.{◌≡◌, ℕ, ◌+◌, ◌*◌, ◌%◌, ◌<◌, ◌≤◌};
ghost use Rattle.records.specs.Align.{padded, fill};

// The least multiple of 4 that is not below `len`: where the piece behind one of `len` bytes begins.
pub fn align(len: u32) -> usize
    ensures value { result ≡ padded len }
    ensures multiple { result % 4 ≡ 0 }
    ensures least { (k : ℕ) → len ≤ 4 * k → result ≤ 4 * k }
    ensures bound { (len ≤ result) × (result < len + 4) }
{
    (len as usize).next_multiple_of(4)
}

// How many bytes of padding follow `len` bytes.
pub fn padding(len: u32) -> usize
    ensures value { result ≡ fill len }
    ensures bound { result < 4 }
{
    align(len) - len as usize
}
