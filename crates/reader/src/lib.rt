#![tactic(auto)]

pub mod attribute;
pub mod class;
pub mod classify;
pub mod echo;
mod errno;
pub mod fault;
pub mod matches;
pub mod messages;
pub mod number;
pub mod reply;
pub mod row;
pub mod sink;
pub mod sinks;
pub mod stage;
pub mod text;
pub mod texts;
pub mod turn;
pub mod visit;
pub mod visitors;
