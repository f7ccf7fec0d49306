use crate::link::Link;
use keyed::table::Table;

pub mod edits;

// Up to 64 links, in the order of attaching. Keys differ.
// No `impl Model`: a Copy type has none that forgets what stands where no value does.
#[derive(Clone, Copy)]
pub struct Links {
    table: Table<Link, 64>,
}
