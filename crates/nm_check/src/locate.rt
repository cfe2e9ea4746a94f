//! The place of a topology text's first fault, and what it is the fault of.

ghost use Rattle.std.specs.Prelude.{IfOk};
ghost use Rattle.toml.specs.View.{table_view};
ghost use Rattle.nm_check.specs.Locate.{IsLocated, IsLocatedIn};

use crate::place::{Found, find};
use nm_base::limits::MAX_TEXT_OCTETS;
use nm_topology::TopoFault;
use nm_topology::parse::document::{Document, read_document};
use nm_topology::parse::top_table;
use std::alloc::{AllocError, Global};
use toml::Table;

/// The place at which a text is refused, if it is.
#[derive(Drop)]
pub enum Located {
    /// It is too long.
    Length,
    /// It is not UTF-8, or no TOML document.
    Letters,
    /// It has a top table: what comes of reading that.
    Read(Reading),
}

/// The place at which a text that has a top table is refused, if it is.
#[derive(Drop)]
pub enum Reading {
    /// In its tables.
    Tables(Table, Found),
    /// Its tables are all read: in the tests of the whole, if it is refused at all.
    Whole(Document),
}

/// The place at which a text with this top table is refused.
fn locate_in(alloc: Global, table: Table) -> Result<Reading, AllocError>
    ensures { IfOk result (λ reading. IsLocatedIn (table_view table) reading) }
{
    if let Some(found) = find(alloc, &table)? {
        return Ok(Reading::Tables(table, found));
    }
    match read_document(alloc, &table) {
        Ok(document) => Ok(Reading::Whole(document)),
        Err(TopoFault::Memory) => Err(AllocError),
        // The document is refused only if a place was found.
        Err(TopoFault::Refused(_)) => unreachable!(),
    }
}

/// The place at which a text is refused. What is refused of the text is what is refused there.
#[tactic(auto, unfolding(nm_topology::specs::Topology::topology_of))]
pub fn locate(alloc: Global, text: &[u8]) -> Result<Located, AllocError>
    ensures { IfOk result (λ located. IsLocated text.now located) }
{
    if text.len() > MAX_TEXT_OCTETS {
        return Ok(Located::Length);
    }
    match top_table(alloc, text) {
        Ok(table) => Ok(Located::Read(locate_in(alloc, table)?)),
        Err(TopoFault::Memory) => Err(AllocError),
        Err(TopoFault::Refused(_)) => Ok(Located::Letters),
    }
}
