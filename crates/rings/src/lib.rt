//! The session's two lists of gaps (01, "Gaps") as rings of fixed room, and what a session does to the pair of them.
#![tactic(auto)]

pub mod gaps;
pub mod place;
pub mod ring;
