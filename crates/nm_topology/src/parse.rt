//! From the text to tables with names.

ghost use Rattle.std.specs.Prelude.{◌≡◌};
ghost use Rattle.std.specs.Option.{ok_or};
ghost use Rattle.toml.specs.Parse.{parse_document};
ghost use Rattle.toml.specs.View.{table_view};
ghost use Rattle.nm_topology.specs.declared.fault.Refusal.TheVariants.{Text};
ghost use Rattle.nm_topology.specs.Fault.{Gives};
ghost use Rattle.nm_topology.specs.Parse.{top_table_of};

use crate::fault::{Refusal, TopoFault};
use std::alloc::Global;
use toml::Table;

pub mod arrays;
pub mod document;
pub mod fields;
pub mod forms;
pub mod head;
pub mod sources;
pub mod tables;

/// The TOML document of a string.
fn top_table_of_str(alloc: Global, text: &str) -> Result<Table, TopoFault>
    ensures { Gives (λ t. table_view t) result (ok_or (parse_document text.now) Text) }
{
    match toml::table_from_str(alloc, text) {
        Ok(table) => Ok(table),
        Err(fault) if fault.is_memory() => Err(TopoFault::Memory),
        Err(_) => Err(TopoFault::Refused(Refusal::Text)),
    }
}

/// The TOML document of a text.
#[tactic(auto, using(crate::proofs::Parsing::top_table_of_utf8))]
pub fn top_table(alloc: Global, text: &[u8]) -> Result<Table, TopoFault>
    ensures { Gives (λ t. table_view t) result (top_table_of text.now) }
{
    match str::from_utf8(text) {
        Ok(text) => top_table_of_str(alloc, text),
        Err(_) => Err(TopoFault::Refused(Refusal::Text)),
    }
}
