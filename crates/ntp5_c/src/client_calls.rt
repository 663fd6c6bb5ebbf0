// The calls on a client table, for C.
ghost use Rattle.std.specs.Prelude.{◌≡◌, []};
ghost use Rattle.client_rules.specs.Call.{clear_table, open_one, close_one, poll, sent, receive, loop_verdict, publish, plain_answer};
ghost use Rattle.client_rules.specs.Numbers.{table_size, step_numbers};
ghost use Rattle.c_structs.specs.Numbers.{written_numbers, received_numbers, verdict_numbers};

use c_structs::answers::{Received, Verdict, Written};

#[unsafe(no_mangle)]
pub extern "C" fn ntp5_table_words() -> usize
    ensures { result ≡ table_size }
{
    ntp5::client_calls::ntp5_table_words()
}

#[unsafe(no_mangle)]
pub extern "C" fn ntp5_clear(table: &mut [u64]) -> u8
    ensures { (plain_answer result [], table.new) ≡ step_numbers clear_table table.old }
{
    ntp5::client_calls::ntp5_clear(table)
}

#[unsafe(no_mangle)]
pub extern "C" fn ntp5_open(
    table: &mut [u64],
    association: u8,
    edition: u8,
    timescale: u8,
    chunk: u16,
) -> u8
    ensures { (plain_answer result [], table.new) ≡ step_numbers (open_one association edition timescale chunk) table.old }
{
    ntp5::client_calls::ntp5_open(table, association, edition, timescale, chunk)
}

#[unsafe(no_mangle)]
pub extern "C" fn ntp5_close(table: &mut [u64], association: u8) -> u8
    ensures { (plain_answer result [], table.new) ≡ step_numbers (close_one association) table.old }
{
    ntp5::client_calls::ntp5_close(table, association)
}

#[unsafe(no_mangle)]
pub extern "C" fn ntp5_poll(
    table: &mut [u64],
    association: u8,
    client_cookie: u64,
    exponent: i8,
    interleaved: bool,
    out: &mut [u8],
) -> Written
    ensures { (written_numbers result out.new, table.new) ≡ step_numbers (poll association client_cookie exponent interleaved out.old) table.old }
{
    ntp5::client_calls::ntp5_poll(
        table,
        association,
        client_cookie,
        exponent,
        interleaved,
        out,
    )
}

#[unsafe(no_mangle)]
pub extern "C" fn ntp5_sent(table: &mut [u64], association: u8, t1: u64) -> u8
    ensures { (plain_answer result [], table.new) ≡ step_numbers (sent association t1) table.old }
{
    ntp5::client_calls::ntp5_sent(table, association, t1)
}

#[unsafe(no_mangle)]
pub extern "C" fn ntp5_receive(
    table: &mut [u64],
    association: u8,
    datagram: &[u8],
    t4: u64,
) -> Received
    ensures { (received_numbers result, table.new) ≡ step_numbers (receive association datagram.now t4) table.old }
{
    ntp5::client_calls::ntp5_receive(table, association, datagram, t4)
}

#[unsafe(no_mangle)]
pub extern "C" fn ntp5_loop_verdict(table: &[u64], association: u8, id: &[u8]) -> Verdict
    ensures { (verdict_numbers result, table.now) ≡ step_numbers (loop_verdict association id.now) table.now }
{
    ntp5::client_calls::ntp5_loop_verdict(table, association, id)
}

#[unsafe(no_mangle)]
pub extern "C" fn ntp5_publish(table: &[u64], selected: u16, id: &[u8], out: &mut [u8]) -> Written
    ensures { (written_numbers result out.new, table.now) ≡ step_numbers (publish selected id.now out.old) table.now }
{
    ntp5::client_calls::ntp5_publish(table, selected, id, out)
}
