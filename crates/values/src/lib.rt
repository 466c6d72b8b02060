#![tactic(auto)]

pub mod big_integer;
pub mod boolean;
pub mod date_time;
pub mod enumeration;
pub mod fixed;
pub mod integer;
pub mod legal;
pub mod long_integer;
pub mod number;
pub mod padding;
pub mod refusals;
pub mod spelt;
pub mod strings;
#[cfg(test)]
mod tests;
pub mod ttlv_value;
pub mod value;
pub mod write;
