// Rows: of a condition's lines, the cells that have one value and lie together. Extremes are taken row by row where
// rows are long, line by line where they are short; the answers go all along their lines, or one for each line.
#![tactic(auto)]

pub mod blocks;
pub mod grades;
pub mod packing;
