//! The keys of a topology text: for each kind of table its fields, in the order in which they are
//! read, and the value of each (docs/FORMATS.md). The readers of `parse` read by these lists, the
//! definitions of `specs/Parse` say what is read, and `nm_check` finds by them what is wrong and
//! where.

pub mod array;
pub mod field;
pub mod fields;
pub mod key;
