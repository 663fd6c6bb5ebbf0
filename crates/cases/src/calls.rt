// The calls, by the numbers of their rows, from 0 on.
use actions::Action;
use changes::Change;
use print::Row;
use queries::Query;
use std::io;
use std::io::Write;

// Makes the call of this number and prints its result. `table` is the client's, and `kept` keeps the responder's store.
pub(crate) fn run<W: Write>(
    row: Row<'_, W>,
    call: usize,
    line: &[u8],
    table: &mut [u64],
    kept: &mut [u8],
) -> io::Result<()> {
    // Each library has an enum of its own calls: one enum would know of all three.
    if let Some(change) = Change::at(call) {
        return changes::run(row, change, line, table);
    }
    if let Some(action) = Action::at(call) {
        return actions::run(row, action, line, kept);
    }
    match Query::at(call) {
        Some(query) => queries::run(row, query, line, table),
        None => Ok(()),
    }
}
