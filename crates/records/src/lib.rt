#![tactic(auto)]

pub mod align;
pub mod ifinfomsg;
pub mod nlattr;
pub mod nlmsgerr;
pub mod nlmsghdr;
pub mod numbers;
pub mod record;
pub mod tcmsg;
