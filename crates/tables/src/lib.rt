// Tables of one byte for each cell, as parts of one buffer.
#![tactic(auto)]

pub mod fill;
pub mod grades;
pub mod limits;
pub mod tests;
