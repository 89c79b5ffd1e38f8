// The steps of a stage that start no stage: what it writes, and its function over its own conditions.
#![tactic(auto)]

pub mod cuts;
pub mod ends;
pub mod gates;
pub mod value_rows;
pub mod values;
