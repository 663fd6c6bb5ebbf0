// The call on a trace and a client table, for C.
ghost use Rattle.std.specs.Prelude.{◌≡◌};
ghost use Rattle.trace_rules.specs.Replay.{replay_at};
ghost use Rattle.c_structs.specs.Replayed.{replay_left};

use c_structs::replayed::Replayed;

#[unsafe(no_mangle)]
pub extern "C" fn ntp5_replay(
    table: &mut [u64],
    trace: &[u8],
    at: usize,
    out: &mut [u8],
) -> Replayed
    ensures { (result, out.new, table.new) ≡ replay_left (replay_at trace.now at out.old table.old) }
{
    ntp5::trace_calls::ntp5_replay(table, trace, at, out)
}
