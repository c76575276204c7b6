//! The plain types that every layer shares, under the Rust's own names.
#![tactic(auto)]

pub mod answers;
pub mod binding;
pub mod codes;
pub mod config;
pub mod ids;
pub mod messages;
pub mod output;
pub mod parts;
pub mod reasons;
