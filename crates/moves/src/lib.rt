// What a move asks of a record, the record that has the moved lengths, and a string as it is moved (FORMAT: Moving).
#![tactic(auto)]

pub mod records;
pub mod strings;
pub mod tests;
