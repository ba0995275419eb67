// The library, callable from outside: reads calls of 64 bytes from standard input until it ends and writes an answer of 64 bytes for each.
// Byte 0 of a call is its operation, byte 0 of an answer the refusal number. CALLS.md in this crate's folder lists the operations.
#![tactic(auto)]

mod account;
mod blocks;
mod cycles;
mod lines;
mod numbers;
mod recordings;

use blocks::Tables;
use cycle::Bus;
use recordings::Bench;

// What lasts from call to call, beside the cache tables.
#[derive(Clone, Copy)]
struct Desk {
    bus: Bus,
    bench: Bench,
}

// Calls that leave nothing behind.
// Stays: matches on the call's number, here and below, with the call and its answer beside it: CALLS.md lists them, and as what the functions take and
// leave differs, a table of them would be no plainer.
fn on_lines(op: u8, call: &[u8; 64], out: &mut [u8; 64]) {
    match op {
        1 => lines::pack(call, out),
        2 => lines::unpack(call, out),
        3 => lines::decode(call, out),
        4 => lines::encode(call, out),
        5 => lines::status(call, out),
        6 => lines::parity(call, out),
        7 => lines::contest(call, out),
        _ => {
            out[0] = 255;
        }
    }
}

fn on_bus(op: u8, call: &[u8; 64], out: &mut [u8; 64], bus: Bus) -> Bus {
    match op {
        8 => cycles::fresh(call, out, bus),
        9 => cycles::step(call, out, bus),
        _ => cycles::set(call, out),
    }
}

fn on_blocks(op: u8, call: &[u8; 64], out: &mut [u8; 64], tables: &mut Tables) {
    match op {
        11 => blocks::set_sizes(call, tables),
        12 => blocks::set_memory(call, tables),
        13 => blocks::set_copy(call, tables),
        14..=16 => blocks::on_lent(call, out, tables),
        17 => blocks::put_states(call, out, tables),
        _ => blocks::put_copies(call, out, tables),
    }
}

fn on_bench(op: u8, call: &[u8; 64], out: &mut [u8; 64], bench: Bench) -> Bench {
    match op {
        19 => recordings::fresh(call, out, bench),
        20 => recordings::judge(call, out, bench),
        21 => recordings::set_tally(call, bench),
        22 => recordings::set_judge(call, bench),
        23 => account::judge(call, out, bench),
        24 => account::put_share(call, out, bench),
        _ => account::set_entry(call, bench),
    }
}

// Answers one call. An operation that isn't listed is answered by 255.
fn answer(call: &[u8; 64], out: &mut [u8; 64], desk: Desk, tables: &mut Tables) -> Desk {
    let op = call[0];
    let mut next = desk;
    match op {
        8..=10 => next.bus = on_bus(op, call, out, desk.bus),
        11..=18 => on_blocks(op, call, out, tables),
        19..=25 => next.bench = on_bench(op, call, out, desk.bench),
        _ => on_lines(op, call, out),
    }
    next
}

// A fresh bus and a fresh judge at limit 16, no totals, and nothing used.
fn first_desk() -> Desk {
    Desk {
        bus: cycles::first_bus(),
        bench: recordings::first_bench(),
    }
}

// Reads one call and answers it: what lasts, or nothing where no more is to be answered. A torn last call is not answered.
fn one_turn(desk: Desk, tables: &mut Tables) -> Option<Desk> {
    let mut call = [0u8; 64];
    let mut out = [0u8; 64];
    if io::read_full(0, &mut call) < 64 {
        return None;
    }
    let next = answer(&call, &mut out, desk, tables);
    if io::write_all(1, &out) {
        Some(next)
    } else {
        None
    }
}

fn main() {
    let mut tables = blocks::first_tables();
    let mut desk = first_desk();
    // A proved loop has to end, and nothing says that the input does: the turns fall from a number that no run uses up.
    for _ in 0..u64::MAX {
        let Some(next) = one_turn(desk, &mut tables) else {
            break;
        };
        desk = next;
    }
}
