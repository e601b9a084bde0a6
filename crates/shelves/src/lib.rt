// The files of a shelf and of the old form: their lengths read, and their bytes put (FORMAT: Shelf layout, Old form).
#![tactic(auto)]

pub mod entries;
pub mod making;
pub mod old;
pub mod table;
