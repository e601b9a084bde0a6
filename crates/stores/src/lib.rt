// A list of rows as a store: whether it can be written, how long that is, and its bytes (FORMAT: Store writing).
#![tactic(auto)]

pub mod making;
pub mod tests;
