//! A board over any source.
use table::Table;

/// A board: tickets on the mills of a shop. It holds the source that it was opened on, and a table in which what the source meant at
/// the opening is copied.
#[derive(Drop)]
pub struct Board<S> {
    pub(crate) source: S,
    pub(crate) table: Table,
}
