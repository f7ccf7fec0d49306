ghost use Rattle.std.specs.Prelude.{◌≡◌};
ghost use Rattle.filters.specs.Statuses.{status};

use records::numbers::{EEXIST, EINVAL, ENOENT, ENOSPC};

// Why the table refuses.
#[derive(Clone, Copy, PartialEq, Eq, Debug)]
pub enum Refusal {
    // no filter, or no bpf filter, has the key
    NoEntry,
    // a filter has the key
    Exists,
    // what can be no filter here, or no name
    Invalid,
    // 32 filters stand
    NoSpace,
}

impl Refusal {
    // Its status, as a kernel sends it: an errno negated.
    pub fn status(self) -> i32
        ensures { result ≡ status self }
    {
        match self {
            Refusal::NoEntry => -ENOENT,
            Refusal::Exists => -EEXIST,
            Refusal::Invalid => -EINVAL,
            Refusal::NoSpace => -ENOSPC,
        }
    }
}
