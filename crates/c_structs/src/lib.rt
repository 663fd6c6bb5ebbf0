// The structs of the C interface, made of the core's answers and headers.
#![tactic(auto)]

pub mod answers;
pub mod headers;
pub mod replayed;
