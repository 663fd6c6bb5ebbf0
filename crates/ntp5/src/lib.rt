// The C interface, S-3, S-4 and G-6: the core's calls on numbers and byte slices. Nothing is decided here: each call passes its arguments
// to the core and turns the core's answer into numbers. A slice is a pointer and a length in C; include/ntp5.h declares all of it.
#![tactic(auto)]

pub mod client_calls;
pub mod responder_calls;
pub mod single_calls;
pub mod trace_calls;
