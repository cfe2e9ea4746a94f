//! Laws of the lists of fields. A law is a function that does nothing: its `ensures` is the
//! statement.

ghost use Rattle.toml.specs.Data.{Members};
ghost use Rattle.nm_topology.specs.declared.parse.head.Head.{Head};
ghost use Rattle.nm_check.specs.TableLaws.{IsRefusedAtItsFields};

/// Each kind of table is refused exactly where its list of fields says, and for what is refused
/// there: at a key that is not in the list, else at the first field that is refused; all fields
/// before it are read.
pub fn tables_are_refused_at_their_fields()
    ensures { (head : Head) (t : Members) → IsRefusedAtItsFields head t }
{}
