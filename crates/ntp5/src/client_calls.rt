// The calls on a client table.
ghost use Rattle.std.specs.Prelude.{◌≡◌, []};
ghost use Rattle.client_rules.specs.Call.{clear_table, open_one, close_one, poll, sent, receive, loop_verdict, publish, plain_answer};
ghost use Rattle.client_rules.specs.Numbers.{table_size, step_numbers};
ghost use Rattle.c_structs.specs.Numbers.{written_numbers, received_numbers, verdict_numbers};

use c_structs::answers;
use c_structs::answers::{Received, Verdict, Written};
use header::ClientCookie;
use refusal::outcome_number;

pub fn ntp5_table_words() -> usize
    ensures { result ≡ table_size }
{
    client::table_words()
}

pub fn ntp5_clear(table: &mut [u64]) -> u8
    ensures { (plain_answer result [], table.new) ≡ step_numbers clear_table table.old }
{
    outcome_number(client::clear(table))
}

pub fn ntp5_open(table: &mut [u64], association: u8, edition: u8, timescale: u8, chunk: u16) -> u8
    ensures { (plain_answer result [], table.new) ≡ step_numbers (open_one association edition timescale chunk) table.old }
{
    outcome_number(client::open(table, association, edition, timescale, chunk))
}

pub fn ntp5_close(table: &mut [u64], association: u8) -> u8
    ensures { (plain_answer result [], table.new) ≡ step_numbers (close_one association) table.old }
{
    outcome_number(client::close(table, association))
}

pub fn ntp5_poll(
    table: &mut [u64],
    association: u8,
    client_cookie: u64,
    exponent: i8,
    interleaved: bool,
    out: &mut [u8],
) -> Written
    ensures { (written_numbers result out.new, table.new) ≡ step_numbers (poll association client_cookie exponent interleaved out.old) table.old }
{
    let mode = answers::mode(interleaved);
    let polled = client::poll(
        table,
        association,
        ClientCookie(client_cookie),
        exponent,
        mode,
        out,
    );
    Written::from(polled)
}

pub fn ntp5_sent(table: &mut [u64], association: u8, t1: u64) -> u8
    ensures { (plain_answer result [], table.new) ≡ step_numbers (sent association t1) table.old }
{
    outcome_number(client::sent(table, association, t1))
}

pub fn ntp5_receive(table: &mut [u64], association: u8, datagram: &[u8], t4: u64) -> Received
    ensures { (received_numbers result, table.new) ≡ step_numbers (receive association datagram.now t4) table.old }
{
    // The whole datagram, taken apart here: two exports use this one, and the compiler then hands it its address and its length, and not
    // a reference to both, on which the processor would wait.
    let received = client::receive(table, association, &datagram[0..], t4);
    Received::from(received)
}

pub fn ntp5_loop_verdict(table: &[u64], association: u8, id: &[u8]) -> Verdict
    ensures { (verdict_numbers result, table.now) ≡ step_numbers (loop_verdict association id.now) table.now }
{
    Verdict::from(client::loop_verdict(table, association, id))
}

pub fn ntp5_publish(table: &[u64], selected: u16, id: &[u8], out: &mut [u8]) -> Written
    ensures { (written_numbers result out.new, table.now) ≡ step_numbers (publish selected id.now out.old) table.now }
{
    let published = client::publish(table, selected, id, out);
    answers::of_published(published)
}
