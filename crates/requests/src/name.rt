ghost use Rattle.std.specs.Prelude.{◌≡◌, ◌≤◌, length, None, Some, MatchResult};
ghost use Rattle.requests.specs.Refusals.{name_fault, checked};

use crate::fault::ArgumentFault;

// A name that can be written: at most 256 bytes, and none of them zero.
#[derive(Clone, Copy, PartialEq, Eq, Hash, Debug)]
pub struct Name<'a> {
    bytes: &'a [u8],
    ghost sound: { name_fault bytes.now ≡ None },
    ghost short: { length bytes.now ≤ 256 },
}

impl<'a> Name<'a> {
    // The name of these bytes, if it can be written.
    pub fn new(bytes: &'a [u8]) -> Result<Name<'a>, ArgumentFault>
        ensures { MatchResult result (λ n. (n.bytes.now ≡ «bytes».now) × (name_fault «bytes».now ≡ None)) (λ f. name_fault «bytes».now ≡ Some f) }
    {
        if bytes.contains(&0) {
            return Err(ArgumentFault::ZeroInName);
        }
        if bytes.len() > 256 {
            return Err(ArgumentFault::LongName(bytes.len()));
        }
        Ok(Name { bytes })
    }

    pub fn bytes(self) -> &'a [u8]
        ensures { result.now ≡ self.entry.bytes.now }
    {
        self.bytes
    }
}

// A name has no zero byte, and at most 256 bytes.
pub fn check_name(name: &[u8]) -> Result<(), ArgumentFault>
    ensures { result ≡ checked (name_fault name.now) }
{
    Name::new(name)?;
    Ok(())
}
