ghost use Rattle.std.specs.Prelude.{◌≡◌};
ghost use Rattle.reader.specs.Names.{zero_at, text_of, shown};

use crate::fault::AttributeFault;

// The place of the first zero, or the length.
fn zero_at(payload: &[u8]) -> usize
    ensures { result ≡ zero_at payload.now }
{
    payload
        .iter()
        .position(|b| *b == 0)
        .unwrap_or(payload.len())
}

// A text without its final zero, which is its only one.
pub fn text_of(payload: &[u8]) -> Result<&[u8], AttributeFault>
    ensures { shown result ≡ text_of payload.now }
{
    let n = zero_at(payload);
    if n + 1 == payload.len() {
        Ok(&payload[..n])
    } else {
        Err(AttributeFault::Text)
    }
}
