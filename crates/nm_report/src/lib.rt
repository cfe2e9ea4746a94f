//! The results of a run of a whole network, for people and for programs: its measures, as tables or
//! comma-separated values, the network as a graph, and packets as lines.
#![tactic(auto)]

pub mod csv;
pub mod dot;
mod iface_table;
mod legend;
mod measures;
pub mod packet_line;
pub mod picture;
pub mod report;
mod source_lines;
pub mod source_rows;
mod source_tables;
mod table;
mod units;
mod whole;

pub use csv::csv_text;
pub use dot::dot_text;
pub use packet_line::push_packet_line;
pub use picture::load_text;
pub use report::report_text;
pub use source_rows::rows_text;
