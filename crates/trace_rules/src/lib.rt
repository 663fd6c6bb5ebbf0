// A trace of client calls, W-208: specs/ defines its records, the calls that it is and its replay, and says what holds of them, proofs/ that
// it does. There is no code, only the types of a record.
#![tactic(auto)]

use header::ClientCookie;

// W208-4: the call that a record stands for, but for the association and, of `Receive`, the datagram.
#[derive(Clone, Copy)]
pub enum Action {
    // The edition, the timescale and the chunk size.
    // A number, since the call that it is refuses the edition (W204-7).
    Open(u8, u8, u16),
    // The client cookie, the exponent, and whether interleaved is wanted.
    Poll(ClientCookie, i8, bool),
    // T1.
    Sent(u64),
    // T4. The datagram is the record's data.
    Receive(u64),
    Close,
}

#[derive(Clone, Copy)]
pub struct Record {
    pub association: u8,
    pub action: Action,
    // How many octets its data has.
    pub size: usize,
}

// W208-6: what is wrong with a record.
#[derive(Clone, Copy)]
pub enum Fault {
    Mark,
    Kind,
    Length,
    Cut,
}

// What a trace begins with: three cases, which the claims on traces name; a `Result<Option<Record>, Fault>` is no plainer.
#[derive(Clone, Copy)]
pub enum Found {
    Call(Record),
    End,
    Wrong(Fault),
}
