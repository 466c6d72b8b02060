#![tactic(auto)]

pub mod error_location;
pub mod fault;
pub mod item_fault;
pub mod layer;
