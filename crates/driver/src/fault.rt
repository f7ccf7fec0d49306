ghost use Rattle.std.specs.Prelude.{◌≡◌};
ghost use Rattle.driver.specs.Numbers.{exchange_refusal};
ghost use Rattle.driver.specs.declared.fault.ExchangeFault.TheVariants.{Turn};

use reader::fault::TurnFault;

// Why an exchange did not come to its end as it should.
#[derive(Clone, Copy, PartialEq, Eq, Debug)]
pub enum ExchangeFault {
    // 9: the host refused to open, with this errno
    Open(i32),
    // 10: the host refused the request, with this errno
    Send(i32),
    // 11: a receive failed with this errno, before the reply's end
    Receive(i32),
    // 12 to 27: what the reply came to; 12 if it had not ended after 4,096 datagrams
    Turn(TurnFault),
}

// By hand, and not by `#[from]`, whose contract does not say which case it makes.
impl From<TurnFault> for ExchangeFault {
    ghost from_gives = { λ f r. r ≡ Turn f };

    fn from(fault: TurnFault) -> ExchangeFault {
        ExchangeFault::Turn(fault)
    }
}

impl ExchangeFault {
    // The number that is fixed for this fault.
    pub fn number(self) -> u8
        ensures { result ≡ (exchange_refusal self).number }
    {
        match self {
            ExchangeFault::Open(_) => 9,
            ExchangeFault::Send(_) => 10,
            ExchangeFault::Receive(_) => 11,
            ExchangeFault::Turn(fault) => fault.number(),
        }
    }

    // The host's errno, or the kernel's, where it is one of them that refused.
    pub fn errno(self) -> Option<i32>
        ensures { result ≡ (exchange_refusal self).errno }
    {
        match self {
            ExchangeFault::Open(errno)
            | ExchangeFault::Send(errno)
            | ExchangeFault::Receive(errno) => Some(errno),
            ExchangeFault::Turn(fault) => fault.errno(),
        }
    }
}
