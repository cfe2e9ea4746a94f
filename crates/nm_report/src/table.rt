//! Tables with aligned columns.

use nm_base::{push_number, push_rate, push_text, push_time};
use nm_measure::{Appended, end_line};
use std::alloc::{AllocError, Global};

/// A table of cells, row by row. Its first columns are texts, aligned to the left, and all others
/// numbers, aligned to the right.
#[derive(Drop)]
pub(crate) struct Table {
    alloc: Global,
    columns: usize,
    texts: usize,
    cells: Vec<Vec<u8>>,
}

/// Appends so many spaces.
fn push_spaces(text: &mut Vec<u8>, count: usize) -> Appended {
    for _ in 0..count {
        push_text(text, b" ")?;
    }
    Ok(())
}

impl Table {
    /// A table with a head; so many of its first columns are texts.
    pub(crate) fn new(alloc: Global, head: &[&str], texts: usize) -> Result<Self, AllocError> {
        let mut table = Table {
            alloc,
            columns: head.len(),
            texts,
            cells: Vec::new(alloc),
        };
        for name in head {
            table.text(name.as_bytes())?;
        }
        Ok(table)
    }

    /// One more cell, with a text.
    pub(crate) fn text(&mut self, text: &[u8]) -> Appended {
        let cell = Vec::from_slice(self.alloc, text)?;
        self.cells.push(cell)?;
        Ok(())
    }

    /// One more cell, with a number.
    pub(crate) fn number(&mut self, number: u64) -> Appended {
        let mut cell = Vec::new(self.alloc);
        push_number(&mut cell, number)?;
        self.cells.push(cell)?;
        Ok(())
    }

    /// One more cell, with a rate in bits per second.
    pub(crate) fn rate(&mut self, rate: u64) -> Appended {
        let mut cell = Vec::new(self.alloc);
        push_rate(&mut cell, rate)?;
        self.cells.push(cell)?;
        Ok(())
    }

    /// One more cell, with a time in nanoseconds.
    pub(crate) fn time(&mut self, nanoseconds: u64) -> Appended {
        let mut cell = Vec::new(self.alloc);
        push_time(&mut cell, nanoseconds)?;
        self.cells.push(cell)?;
        Ok(())
    }

    /// How wide a column is.
    fn width(&self, column: usize) -> usize {
        let mut width = 0;
        let mut at = 0;
        for cell in &self.cells {
            if at == column {
                width = cell.len().max(width);
            }
            at = self.after(at);
        }
        width
    }

    /// The column behind this one.
    fn after(&self, column: usize) -> usize {
        if column.saturating_add(1) >= self.columns {
            0
        } else {
            column.saturating_add(1)
        }
    }

    /// Appends a cell of a column that is so wide.
    fn push_cell(&self, text: &mut Vec<u8>, cell: &[u8], column: usize, width: usize) -> Appended {
        let spaces = width.saturating_sub(cell.len());
        if column >= self.texts {
            push_spaces(text, spaces)?;
            return push_text(text, cell);
        }
        push_text(text, cell)?;
        push_spaces(text, spaces)
    }

    /// How wide the columns are.
    fn widths(&self) -> Result<Vec<usize>, AllocError> {
        let mut widths = Vec::new(self.alloc);
        for column in 0..self.columns {
            widths.push(self.width(column))?;
        }
        Ok(widths)
    }

    /// Appends an empty line and the table, if it has rows below its head.
    pub(crate) fn print_behind(&self, text: &mut Vec<u8>) -> Appended {
        if self.cells.len() <= self.columns {
            return Ok(());
        }
        push_text(text, b"\n")?;
        self.print(text)
    }

    /// Appends the table; its rows end with line feeds.
    pub(crate) fn print(&self, text: &mut Vec<u8>) -> Appended {
        let widths = self.widths()?;
        let mut column = 0;
        for cell in &self.cells {
            let width = widths.get(column).copied().unwrap_or(0);
            self.push_cell(text, cell.as_slice(), column, width)?;
            column = self.after(column);
            push_text(text, if column == 0 { b"\n" } else { b"  " })?;
        }
        Ok(())
    }
}

/// Appends how many rows of a table were left out since they are idle, if any were.
pub(crate) fn push_left_out(text: &mut Vec<u8>, rows: &str, count: u64) -> Appended {
    if count == 0 {
        return Ok(());
    }
    push_text(text, b"idle ")?;
    push_text(text, rows.as_bytes())?;
    push_text(text, b" left out: ")?;
    push_number(text, count)?;
    push_text(text, b"\n")
}
