#![tactic(auto)]

pub mod byte_offset;
pub mod field_type;
pub mod refusals;
pub mod state_machine;
#[cfg(test)]
mod tests;
pub mod ttlv_length;
pub mod ttlv_tag;
pub mod ttlv_type;
