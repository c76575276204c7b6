//! 01's binary trace: its reader, the meaning of a record, and the text of a line.
#![tactic(auto)]

pub mod numbers;
pub mod reader;
pub mod records;
pub mod text;
