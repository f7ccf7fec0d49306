#![tactic(auto)]

pub mod drive;
pub mod exchange;
pub mod fault;
