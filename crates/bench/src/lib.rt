#![tactic(auto)]

pub mod bench;
mod reply;
mod sent;
