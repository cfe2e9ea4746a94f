//! The place of a topology text's first fault in its tables.

ghost use Rattle.std.specs.Prelude.{◌≡◌, ◌≤◌, Some, IfOk, IfSome};
ghost use Rattle.std.specs.Result.{result_ok};
ghost use Rattle.toml.specs.Data.{get_item};
ghost use Rattle.toml.specs.View.{items_view, table_view, view};
ghost use Rattle.nm_topology.specs.Parse.Fields.{number_at};
ghost use Rattle.nm_check.specs.First.{first_from};
ghost use Rattle.nm_check.specs.Place.{at_top, fields_in, find_in, find_in_arrays, head_of};
ghost use Rattle.nm_check.specs.Place.{item_of, spot_of};
ghost use Rattle.nm_check.specs.Place.{place_at, place_in_array, place_in_field, place_of};
ghost use Rattle.nm_check.specs.Place.{IsFirstPlace, refused_in, source_fields, source_spot};
ghost use Rattle.nm_topology.specs.Keys.{IsInBounds};
ghost use Rattle.nm_topology.specs.Parse.Document.{document_of};
ghost use Rattle.nm_check.specs.Place.{find_behind, no_head};
ghost use Rattle.nm_check.specs.Reading.{first_fault, outcome};

use crate::first::{MemberFault, first_fault, first_member, has_unknown, spot_in};
use crate::spot::{FieldFault, Spot};
use nm_base::limits::MIN_MTU;
use nm_topology::TopoFault;
use nm_topology::keys::array::Array;
use nm_topology::keys::field::{Bounds, Field, Form};
use nm_topology::keys::fields::{
    ARRAYS, FORMAT, HEAD, IFACE_TABLE_ONE, IFACE_TABLE_TWO, KIND_OF_SOURCE, LINK_TABLE, MTU,
    NODE_TABLE, RAW_TABLE, ROUTE_TABLE, TOP_TABLE,
};
use nm_topology::keys::key::TableKey;
use nm_topology::parse::arrays::all_fit;
use nm_topology::parse::fields::{field, required_number};
use nm_topology::parse::head::{Format, Head};
use nm_topology::parse::sources::{SourceTable, required_source_kind};
use nm_topology::parse::tables::{IfaceTable, LinkTable, NodeTable, RouteTable};
use std::alloc::{AllocError, Global};
use toml::{Table, Value};

/// The place of a fault in the tables of a text.
#[derive(Clone, Copy)]
pub enum FaultPlace {
    /// In the top table itself.
    Top(Spot),
    /// In a table of an array.
    Table {
        array: Array,
        number: usize,
        spot: Spot,
    },
}

/// A place, and the head of the text, on which the ranges there depend.
#[derive(Clone, Copy)]
pub struct Found {
    pub head: Head,
    pub place: FaultPlace,
}

/// The head of a text before it is read.
const NO_HEAD: Head = Head {
    format: Format::One,
    mtu: MIN_MTU as u16,
};

/// A number of the top table, or none if it is refused.
fn number_of(table: &Table, key: TableKey, bounds: Bounds) -> Result<Option<u64>, AllocError>
    ensures within { IfOk result (λ found. IfSome found (IsInBounds bounds)) }
    ensures value { IfOk result
        (λ found. found ≡ result_ok (number_at key bounds (table_view table.now))) }
{
    match required_number(table, key, bounds) {
        Ok(number) => Ok(Some(number)),
        Err(TopoFault::Memory) => Err(AllocError),
        Err(TopoFault::Refused(_)) => Ok(None),
    }
}

/// The head of a text; if it is refused, that of no text.
fn head_of(table: &Table) -> Result<Head, AllocError>
    ensures room { IfOk result (λ head. 28 ≤ head.mtu) }
    ensures value { IfOk result (λ head. head ≡ head_of (table_view table.now)) }
{
    let format = number_of(table, TableKey::Format, FORMAT)?;
    let mtu = number_of(table, TableKey::Mtu, MTU)?;
    match (format, mtu) {
        (Some(1), Some(mtu)) => Ok(Head {
            format: Format::One,
            mtu: mtu as u16,
        }),
        (Some(_), Some(mtu)) => Ok(Head {
            format: Format::Two,
            mtu: mtu as u16,
        }),
        _ => Ok(NO_HEAD),
    }
}

/// The head of a text, for a look at its tables alone: what of it is refused is such that no more
/// of them are refused than would be.
pub fn any_head(table: &Table) -> Result<Head, AllocError>
    ensures { IfOk result (λ head. 28 ≤ head.mtu) }
{
    let format = match number_of(table, TableKey::Format, FORMAT)? {
        Some(1) => Format::One,
        _ => Format::Two,
    };
    let mtu = number_of(table, TableKey::Mtu, MTU)?;
    Ok(Head {
        format,
        mtu: mtu.unwrap_or(MTU.greatest) as u16,
    })
}

/// The fields of a table of `source`, by its kind.
fn source_fields(table: &Table) -> Result<&'static [Field], AllocError>
    ensures { IfOk result (λ fields. fields.now ≡ source_fields (table_view table.now)) }
{
    match required_source_kind(table, TableKey::Kind) {
        Ok(kind) => Ok(kind.fields()),
        Err(TopoFault::Memory) => Err(AllocError),
        Err(TopoFault::Refused(_)) => Ok(&RAW_TABLE),
    }
}

/// The fields of a table of an array, in a text with this head.
pub fn fields_of(head: Head, array: Array, table: &Table) -> Result<&'static [Field], AllocError>
    ensures { IfOk result (λ fields. fields.now ≡ fields_in head array (table_view table.now)) }
{
    match array {
        Array::Node => Ok(&NODE_TABLE),
        Array::Iface => match head.format {
            Format::One => Ok(&IFACE_TABLE_ONE),
            Format::Two => Ok(&IFACE_TABLE_TWO),
        },
        Array::Link => Ok(&LINK_TABLE),
        Array::Route => Ok(&ROUTE_TABLE),
        Array::Source => source_fields(table),
    }
}

/// The place at which a table of `source` is refused: at its kind, before all else.
fn source_spot(alloc: Global, head: Head, table: &Table) -> Result<Option<Spot>, AllocError>
    ensures { IfOk result (λ found. found ≡ source_spot head (table_view table.now)) }
{
    if let Some(fault) = first_fault(alloc, head, table, &KIND_OF_SOURCE)? {
        return Ok(Some(Spot::Field(fault)));
    }
    let fields = source_fields(table)?;
    spot_in(alloc, head, table, fields)
}

/// The place at which a table of an array is refused.
fn spot_of(
    alloc: Global,
    head: Head,
    array: Array,
    table: &Table,
) -> Result<Option<Spot>, AllocError>
    ensures { IfOk result (λ found. found ≡ spot_of head array (table_view table.now)) }
{
    if let Array::Source = array {
        return source_spot(alloc, head, table);
    }
    let fields = fields_of(head, array, table)?;
    spot_in(alloc, head, table, fields)
}

/// The first table of an array that is refused.
fn first_table(
    alloc: Global,
    head: Head,
    array: Array,
    items: &[Value],
) -> Result<Option<MemberFault>, AllocError>
    ensures { IfOk result (λ found.
        found ≡ first_from (item_of head array) 0 (items_view items.now)) }
{
    match array {
        Array::Node => first_member::<NodeTable>(alloc, head, items),
        Array::Iface => first_member::<IfaceTable>(alloc, head, items),
        Array::Link => first_member::<LinkTable>(alloc, head, items),
        Array::Route => first_member::<RouteTable>(alloc, head, items),
        Array::Source => first_member::<SourceTable>(alloc, head, items),
    }
}

/// The place at which this member of an array is refused.
pub fn place_of_member(
    alloc: Global,
    head: Head,
    array: Array,
    number: usize,
    value: &Value,
) -> Result<Option<FaultPlace>, AllocError>
    ensures { IfOk result (λ found. found ≡ place_at head array number (Some (view value.now))) }
{
    let Value::Table(table) = value else {
        return Ok(None);
    };
    match spot_of(alloc, head, array, table)? {
        Some(spot) => Ok(Some(FaultPlace::Table {
            array,
            number,
            spot,
        })),
        None => Ok(None),
    }
}

/// The place at which the member of an array with this number is refused.
fn place_at(
    alloc: Global,
    head: Head,
    array: Array,
    items: &[Value],
    number: usize,
) -> Result<Option<FaultPlace>, AllocError>
    ensures { IfOk result (λ found. found
        ≡ place_at head array number (get_item number (items_view items.now))) }
{
    if number >= items.len() {
        return Ok(None);
    }
    place_of_member(alloc, head, array, number, &items[number])
}

/// The place of an array's fault, if it is in a table and not in the array itself.
#[tactic(auto, using(crate::proofs::Items::count_view))]
fn place_in_array(
    alloc: Global,
    head: Head,
    array: Array,
    items: &[Value],
) -> Result<Option<FaultPlace>, AllocError>
    ensures { IfOk result (λ found. found ≡ place_in_array head array (items_view items.now)) }
{
    if !all_fit::<NodeTable>(items) || items.len() > array.limit() {
        return Ok(None);
    }
    match first_table(alloc, head, array, items)? {
        Some(fault) => place_at(alloc, head, array, items, fault.number),
        None => Ok(None),
    }
}

/// The place of the fault of a field of the top table, if it is in a table of an array.
fn place_in_field(
    alloc: Global,
    head: Head,
    table: &Table,
    wanted: Field,
) -> Result<Option<FaultPlace>, AllocError>
    ensures { IfOk result (λ found. found ≡ place_in_field head (table_view table.now) wanted) }
{
    let Form::Tables(array) = wanted.form else {
        return Ok(None);
    };
    match field(table, wanted.key) {
        Some(Value::Array(items)) => place_in_array(alloc, head, array, items),
        _ => Ok(None),
    }
}

/// The place of the fault of a field of the top table.
fn place_of(
    alloc: Global,
    head: Head,
    table: &Table,
    fault: FieldFault,
) -> Result<FaultPlace, AllocError>
    ensures { IfOk result (λ found. found ≡ place_of head (table_view table.now) fault) }
{
    match place_in_field(alloc, head, table, fault.field)? {
        Some(place) => Ok(place),
        None => Ok(FaultPlace::Top(Spot::Field(fault))),
    }
}

/// The place of a fault in the arrays of a text with this head, if its arrays are refused.
fn find_in_arrays(alloc: Global, head: Head, table: &Table) -> Result<Option<Found>, AllocError>
    requires { 28 ≤ head.mtu }
    ensures room { IfOk result (λ found. IfSome found (λ f. 28 ≤ f.head.mtu)) }
    ensures value { IfOk result (λ found. found ≡ find_in_arrays head (table_view table.now)) }
{
    match first_fault(alloc, head, table, &ARRAYS)? {
        Some(fault) => Ok(Some(Found {
            head,
            place: place_of(alloc, head, table, fault)?,
        })),
        None => Ok(None),
    }
}

/// A fault of the top table.
fn at_top(spot: Spot) -> Found
    ensures { result ≡ at_top spot }
{
    Found {
        head: NO_HEAD,
        place: FaultPlace::Top(spot),
    }
}

/// The place in its tables at which a text is refused, if it is. The document is refused exactly if
/// there is such a place, and for what is refused there. If the place is in a table of an array,
/// the tables before it in the array are read.
pub fn find(alloc: Global, table: &Table) -> Result<Option<Found>, AllocError>
    ensures room { IfOk result (λ found. IfSome found (λ f. 28 ≤ f.head.mtu)) }
    ensures refused { IfOk result
        (λ found. outcome (document_of (table_view table.now)) ≡ refused_in found) }
    ensures first { IfOk result
        (λ found. IfSome found (λ f. IsFirstPlace (table_view table.now) f.head f.place)) }
{
    find_first(alloc, table)
}

/// The same, step by step.
fn find_first(alloc: Global, table: &Table) -> Result<Option<Found>, AllocError>
    ensures room { IfOk result (λ found. IfSome found (λ f. 28 ≤ f.head.mtu)) }
    ensures value { IfOk result (λ found. found ≡ find_in (table_view table.now)) }
{
    if has_unknown(table, &TOP_TABLE)? {
        Ok(Some(at_top(Spot::Unknown)))
    } else {
        find_behind(alloc, table)
    }
}

/// The place at which a text is refused if its top table has only known keys.
fn find_behind(alloc: Global, table: &Table) -> Result<Option<Found>, AllocError>
    ensures room { IfOk result (λ found. IfSome found (λ f. 28 ≤ f.head.mtu)) }
    ensures value { IfOk result (λ found. found
        ≡ find_behind (table_view table.now) (first_fault no_head (table_view table.now) HEAD)) }
{
    match first_fault(alloc, NO_HEAD, table, &HEAD)? {
        Some(fault) => Ok(Some(at_top(Spot::Field(fault)))),
        None => find_with_head(alloc, table),
    }
}

/// The place at which a text is refused if its head is read.
fn find_with_head(alloc: Global, table: &Table) -> Result<Option<Found>, AllocError>
    ensures room { IfOk result (λ found. IfSome found (λ f. 28 ≤ f.head.mtu)) }
    ensures value { IfOk result (λ found. found
        ≡ find_in_arrays (head_of (table_view table.now)) (table_view table.now)) }
{
    let head = head_of(table)?;
    find_in_arrays(alloc, head, table)
}
