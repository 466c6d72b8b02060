#![tactic(auto)]

pub mod buffer_sink;
pub mod exact;
pub mod refusals;
pub mod sink;
pub mod sink_source;
pub mod slice_source;
pub mod source;
#[cfg(test)]
mod tests;
pub mod text;
pub mod vec_sink;
