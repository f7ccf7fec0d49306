#![tactic(auto)]

pub mod host;
pub mod keeping;
pub mod loss;
pub mod recorded;
