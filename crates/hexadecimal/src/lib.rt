#![tactic(auto)]

pub mod digits;
pub mod hex_sink;
pub mod hex_source;
#[cfg(test)]
mod tests;
pub mod write;
