//! Commands that tell what stands in a replay: what is asked of it, and the text that says it.
pub mod ask;
pub mod tell;
