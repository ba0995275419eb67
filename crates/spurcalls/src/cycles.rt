// Calls 8 to 10: the bus, its cycles, and its state set raw.
ghost use Rattle.std.specs.Prelude.{◌≡◌, ◌≤◌, take};
ghost use Rattle.cycle.specs.Cycle.{answer_of};
ghost use Rattle.cycle.specs.Nodes.{step_table_of};

use crate::{lines, numbers};
use basics::Refusal;
use codes::Status;
use cycle::{Bus, Event, Moved, Node, Reply, Transfer};

// An owner; 255 is none.
fn owner_of(number: u8) -> Option<u8> {
    if number == 255 { None } else { Some(number) }
}

fn transfer_of(open: bool, owed: u8, age: u8) -> Transfer {
    if open {
        Transfer::Open { owed, age }
    } else {
        Transfer::Idle
    }
}

// The state at [16..25] of a call, raw.
fn bus_in(call: &[u8; 64]) -> Bus {
    Bus {
        wave: numbers::half_at(call, 16),
        settling: call[18],
        turn: call[19],
        owner: owner_of(call[20]),
        limit: call[21],
        transfer: transfer_of(numbers::flag(call[22]), call[23], call[24]),
    }
}

fn put_transfer(out: &mut [u8; 64], transfer: Transfer) {
    if let Transfer::Open { owed, age } = transfer {
        out[22] = 1;
        out[23] = owed;
        out[24] = age;
    }
}

// And of an answer.
fn put_bus(out: &mut [u8; 64], bus: Bus) {
    numbers::put(out, 16, bus.wave.to_be_bytes());
    out[18] = bus.settling;
    out[19] = bus.turn;
    out[20] = numbers::or_none(bus.owner);
    out[21] = bus.limit;
    put_transfer(out, bus.transfer);
}

// The bus before the first call: fresh, limit 16.
pub(crate) fn first_bus() -> Bus {
    Bus::fresh(16).unwrap()
}

// Call 8. A refused one keeps the bus.
pub(crate) fn fresh(call: &[u8; 64], out: &mut [u8; 64], bus: Bus) -> Bus {
    let next = numbers::accepted(out, Bus::fresh(call[1])).unwrap_or(bus);
    put_bus(out, next);
    next
}

// Stays: a match and no `From`, since `Event` is another crate's type and a call's number is taken modulo 3.
fn event_of(number: u8, status: Status) -> Event {
    match number % 3 {
        0 => Event::Nothing,
        1 => Event::Strobe,
        _ => Event::Finish(status),
    }
}

// A node: bit 7 wants, bit 6 holds, the low six bits are the words.
fn node_of(byte: u8) -> Node {
    Node {
        wants: byte / 128 == 1,
        holds: byte / 64 % 2 == 1,
        words: byte % 64,
    }
}

// The seventeen nodes at [5..22], of which the table is the first part.
fn nodes_in(call: &[u8; 64]) -> [Node; 17] {
    let mut nodes = [node_of(0); 17];
    for (node, &byte) in nodes.iter_mut().zip(&call[5..22]) {
        *node = node_of(byte);
    }
    nodes
}

// One bus cycle over a table of the first n nodes, lent to the library as document 01 has it.
fn step_over(
    bus: Bus,
    reset: bool,
    event: Event,
    nodes: [Node; 17],
    n: usize,
) -> Result<Moved, Refusal>
    requires { n ≤ 17 }
    ensures { answer_of bus result ≡ step_table_of bus reset event (take n nodes) }
{
    bus::step(bus, reset, event, &nodes[..n])
}

// A note's number is its place among the notes.
fn put_reply(out: &mut [u8; 64], reply: Reply) {
    numbers::put_flag(out, 1, reply.rqst);
    numbers::put_flag(out, 2, reply.start);
    numbers::put_flag(out, 3, reply.ack);
    out[4] = numbers::or_none(reply.starter);
    out[5] = numbers::or_none(reply.status.map(lines::status_number));
    out[6] = reply.note as u8;
}

// The state that the library answers is the bus from now on; a refused call keeps it.
fn put_stepped(out: &mut [u8; 64], bus: Bus, stepped: Result<Moved, Refusal>) -> Bus {
    match numbers::accepted(out, stepped) {
        Some(moved) => {
            put_reply(out, moved.reply);
            moved.bus
        }
        None => bus,
    }
}

// Call 9.
pub(crate) fn step(call: &[u8; 64], out: &mut [u8; 64], bus: Bus) -> Bus {
    let event = event_of(call[2], lines::status_of(call[3]));
    let n = numbers::size(call[4].min(17));
    let stepped = step_over(bus, numbers::flag(call[1]), event, nodes_in(call), n);
    let next = put_stepped(out, bus, stepped);
    put_bus(out, next);
    next
}

// Call 10.
pub(crate) fn set(call: &[u8; 64], out: &mut [u8; 64]) -> Bus {
    let bus = bus_in(call);
    put_bus(out, bus);
    bus
}
