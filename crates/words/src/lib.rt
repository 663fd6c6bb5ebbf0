// Words of a line that are numbers, octets or modes.
#![tactic(auto)]

pub mod line;
pub mod mode;
pub mod number;
pub mod octet_word;
pub mod problem;
