#![tactic(auto)]

pub mod link;
pub mod links;
