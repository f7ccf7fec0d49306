#![tactic(auto)]

pub mod row;
pub mod table;
