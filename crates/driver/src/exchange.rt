use crate::fault::ExchangeFault;

// A request and its reply: how many datagrams came, and what it came to.
#[derive(Clone, Copy, PartialEq, Eq, Debug)]
pub struct Exchange {
    pub datagrams: u32,
    pub outcome: Result<(), ExchangeFault>,
}
