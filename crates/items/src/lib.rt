#![tactic(auto)]

pub mod fields_read;
pub mod header;
pub mod item;
