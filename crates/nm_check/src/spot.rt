//! The place of a fault in a table.

use nm_topology::Refusal;
use nm_topology::keys::field::Field;

/// A field that is refused.
#[derive(Clone, Copy)]
pub struct FieldFault {
    pub field: Field,
    pub refusal: Refusal,
}

/// The place of its fault in a table.
#[derive(Clone, Copy)]
pub enum Spot {
    /// At a key that the table has not.
    Unknown,
    /// At a field, the first that is refused.
    Field(FieldFault),
}
