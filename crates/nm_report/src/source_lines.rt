//! The values of a source, as lines and as a row of comma-separated values.

ghost use Rattle.std.specs.Prelude.{◌≡◌, ◌<◌, ◌≤◌, ◌++◌, OnOk, Some, length, slice_get, take};
ghost use Rattle.nm_report.specs.Sources.{measure_names, row_values, source_lines};
ghost use Rattle.nm_report.specs.Values.{AreWholeLines};

use crate::csv::push_line;
use crate::measures::name_of;
use nm_base::{push_number, push_text};
use nm_measure::Appended;

/// The value in this place.
fn value_at(values: &[u64], place: usize) -> u64
    requires { place < length values.now }
    ensures { slice_get values.now place ≡ Some result }
{
    values[place]
}

/// Appends a line for each of the first measures of a source, of which there are so many.
pub(crate) fn push_lines(text: &mut Vec<u8>, name: &[u8], values: &[u64], count: usize) -> Appended
    requires measures { length values.now ≡ 28 }
    requires count { count ≤ 28 }
    requires whole { AreWholeLines text.old.items }
    ensures is { OnOk result (text.new.items
        ≡ text.old.items ++ source_lines name.now (take count measure_names) values.now) }
    ensures whole { OnOk result (AreWholeLines text.new.items) }
{
    for place in 0..count {
        push_line(
            text,
            b"source",
            name,
            name_of(place).as_bytes(),
            value_at(values, place),
        )?;
    }
    Ok(())
}

/// Appends values, each behind a comma.
pub(crate) fn push_values(text: &mut Vec<u8>, values: &[u64]) -> Appended
    ensures { OnOk result (text.new.items ≡ text.old.items ++ row_values values.now) }
{
    for place in 0..values.len() {
        push_text(text, b",")?;
        push_number(text, value_at(values, place))?;
    }
    Ok(())
}
