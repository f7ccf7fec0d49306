use crate::row::Row;
use keyed::table::Table;

pub mod edits;

// Up to 32 filters, in the order in which they came. Keys differ.
// No `impl Model`: a Copy type has none that forgets what stands where no value does.
#[derive(Clone, Copy)]
pub struct Filters {
    table: Table<Row, 32>,
}
