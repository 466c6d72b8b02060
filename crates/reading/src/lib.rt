#![tactic(auto)]

pub mod fixed;
pub mod pass;
pub mod read;
pub mod refusals;
pub mod round_trip;
pub mod value_parts;
