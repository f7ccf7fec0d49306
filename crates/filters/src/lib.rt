#![tactic(auto)]

pub mod refusal;
pub mod row;
pub mod store;
pub mod text;
