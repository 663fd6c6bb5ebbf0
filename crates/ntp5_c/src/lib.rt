// The exports of the C library, target/staticlib/libntp5.a: each calls the function of its name in `ntp5` and promises what that one does.
#![tactic(auto)]

pub mod client_calls;
pub mod responder_calls;
pub mod single_calls;
pub mod trace_calls;
