#![tactic(auto)]

mod arguments;
pub mod bpf;
pub mod fault;
pub mod filter;
pub mod handle;
pub mod link;
pub mod mode;
pub mod name;
pub mod optional;
mod pick;
pub mod read;
pub mod request;
pub mod tc;
pub mod write;
mod writer;

pub use records::numbers;
