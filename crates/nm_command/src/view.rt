//! What is shown of a network.

/// What is shown of a network.
#[derive(Clone, Copy)]
pub enum View {
    /// The measures of its run as tables, for a reader.
    Tables,
    /// The measures of its run as comma-separated values, for a program: a line for each.
    Values,
    /// The measures of sources as comma-separated values: a row for each source.
    Rows,
    /// How the delays of each source are spread, as comma-separated values.
    Delays,
    /// It as a graph.
    Graph,
    /// It as a graph, coloured by the use of its links in a run.
    Load,
}

/// The rows of a series.
#[derive(Clone, Copy)]
pub enum Subject {
    /// Of each interface.
    Interfaces,
    /// Of each source.
    Sources,
}
