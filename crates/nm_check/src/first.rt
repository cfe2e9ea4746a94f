//! The first that is refused: of the fields of a table, and of the tables of an array.

ghost use Rattle.std.specs.Prelude.{◌≡◌, IfOk, not};
ghost use Rattle.toml.specs.View.{items_view, table_view};
ghost use Rattle.nm_topology.specs.Parse.Fields.{all_among};
ghost use Rattle.nm_check.specs.Reading.{first_fault, outcome, spot_in};
ghost use Rattle.nm_topology.specs.Keys.{keys_of};
ghost use Rattle.nm_check.specs.First.{first_from};

use crate::reading::read_field;
use crate::spot::{FieldFault, Spot};
use nm_topology::keys::field::Field;
use nm_topology::parse::arrays::Element;
use nm_topology::parse::fields::only;
use nm_topology::parse::head::Head;
use nm_topology::{Refusal, TopoFault};
use std::alloc::{AllocError, Global};
use toml::{Table, Value};

/// The first of these fields that is refused, in a text with this head.
pub fn first_fault(
    alloc: Global,
    head: Head,
    table: &Table,
    fields: &[Field],
) -> Result<Option<FieldFault>, AllocError>
    ensures { IfOk result
        (λ found. found ≡ first_fault head (table_view table.now) fields.now) }
{
    for wanted in fields {
        match read_field(alloc, head, table, *wanted) {
            Ok(()) => {}
            Err(TopoFault::Memory) => return Err(AllocError),
            Err(TopoFault::Refused(refusal)) => {
                return Ok(Some(FieldFault {
                    field: *wanted,
                    refusal,
                }));
            }
        }
    }
    Ok(None)
}

/// Whether a table has a key that none of these fields has.
pub fn has_unknown(table: &Table, fields: &[Field]) -> Result<bool, AllocError>
    ensures { IfOk result (λ b. b ≡ not (all_among (keys_of fields.now) (table_view table.now))) }
{
    match only(table, fields) {
        Ok(()) => Ok(false),
        Err(TopoFault::Memory) => Err(AllocError),
        Err(TopoFault::Refused(_)) => Ok(true),
    }
}

/// At which key or field a table of these fields is refused.
pub fn spot_in(
    alloc: Global,
    head: Head,
    table: &Table,
    fields: &[Field],
) -> Result<Option<Spot>, AllocError>
    ensures { IfOk result (λ found. found ≡ spot_in head fields.now (table_view table.now)) }
{
    if has_unknown(table, fields)? {
        return Ok(Some(Spot::Unknown));
    }
    match first_fault(alloc, head, table, fields)? {
        Some(fault) => Ok(Some(Spot::Field(fault))),
        None => Ok(None),
    }
}

/// A member of an array that is refused: its number, from 0, and why.
#[derive(Clone, Copy)]
pub struct MemberFault {
    pub number: usize,
    pub refusal: Refusal,
}

/// The first member of an array that is refused, in a text with this head.
pub fn first_member<T: Element>(
    alloc: Global,
    head: Head,
    items: &[Value],
) -> Result<Option<MemberFault>, AllocError>
    ensures { IfOk result (λ found.
        found ≡ first_from (λ d. outcome (T.reads head d)) 0 (items_view items.now)) }
{
    let mut number = 0;
    for item in items {
        match T::read(alloc, head, item) {
            Ok(_) => {}
            Err(TopoFault::Memory) => return Err(AllocError),
            Err(TopoFault::Refused(refusal)) => {
                return Ok(Some(MemberFault { number, refusal }));
            }
        }
        number += 1;
    }
    Ok(None)
}
