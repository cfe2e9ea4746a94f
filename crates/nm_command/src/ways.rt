//! Which ways packets of a trace file go.

/// Which packets that pass an interface its trace file has.
#[derive(Clone, Copy)]
pub enum Ways {
    /// Those that arrive and those whose transmission starts.
    Both,
    /// Those whose transmission starts.
    Sent,
    /// Those that arrive.
    Received,
}
