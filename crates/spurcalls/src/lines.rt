// Calls 1 to 7: the line record, START codes, status, parity and the contest. Nothing lasts from one to the next.
use crate::numbers;
use codes::{Code, Operation, Status, Unit};
use record::Record;

// The record at [4..33] of a call.
fn record_in(call: &[u8; 64]) -> Record {
    Record {
        stamp: numbers::word_at(call, 4),
        reset: numbers::flag(call[8]),
        rqst: numbers::flag(call[9]),
        arb: call[10],
        start: numbers::flag(call[11]),
        ack: numbers::flag(call[12]),
        tm1: numbers::flag(call[13]),
        tm0: numbers::flag(call[14]),
        sp: numbers::flag(call[15]),
        spv: numbers::flag(call[16]),
        ad: numbers::word_at(call, 17),
        vtm1: numbers::flag(call[21]),
        vtm0: numbers::flag(call[22]),
        vack: numbers::flag(call[23]),
        vsack: numbers::flag(call[24]),
        vad: numbers::long_at(call, 25),
    }
}

// And of an answer.
fn put_record(out: &mut [u8; 64], lines: Record) {
    numbers::put(out, 4, lines.stamp.to_be_bytes());
    numbers::put_flag(out, 8, lines.reset);
    numbers::put_flag(out, 9, lines.rqst);
    out[10] = lines.arb;
    numbers::put_flag(out, 11, lines.start);
    numbers::put_flag(out, 12, lines.ack);
    numbers::put_flag(out, 13, lines.tm1);
    numbers::put_flag(out, 14, lines.tm0);
    numbers::put_flag(out, 15, lines.sp);
    numbers::put_flag(out, 16, lines.spv);
    numbers::put(out, 17, lines.ad.to_be_bytes());
    numbers::put_flag(out, 21, lines.vtm1);
    numbers::put_flag(out, 22, lines.vtm0);
    numbers::put_flag(out, 23, lines.vack);
    numbers::put_flag(out, 24, lines.vsack);
    numbers::put(out, 25, lines.vad.to_be_bytes());
}

// Call 1. All forty bytes held A5 before: what isn't written still does.
pub(crate) fn pack(call: &[u8; 64], out: &mut [u8; 64]) {
    let mut bytes = [165u8; 40];
    let n = numbers::size(call[2].min(40));
    let packed = record::pack(&mut bytes[..n], numbers::size(call[1]), record_in(call));
    numbers::accepted(out, packed);
    out[1..41].copy_from_slice(&bytes);
}

// Call 2.
pub(crate) fn unpack(call: &[u8; 64], out: &mut [u8; 64]) {
    let n = numbers::size(call[2].min(40));
    let unpacked = record::unpack(&call[3..3 + n], numbers::size(call[1]));
    if let Some(lines) = numbers::accepted(out, unpacked) {
        put_record(out, lines);
    }
}

// Stays: a match and no `From<u8>`, since `Unit` is another crate's type and a call's number is taken modulo 7.
fn unit_of(number: u8) -> Unit {
    match number % 7 {
        0 => Unit::Byte,
        1 => Unit::Halfword,
        2 => Unit::Word,
        3 => Unit::Two,
        4 => Unit::Four,
        5 => Unit::Eight,
        _ => Unit::Sixteen,
    }
}

// Call 3. A unit's number is its place among the units.
pub(crate) fn decode(call: &[u8; 64], out: &mut [u8; 64]) {
    let code = Code {
        tm1: numbers::flag(call[1]),
        tm0: numbers::flag(call[2]),
        ad: numbers::word_at(call, 3),
    };
    if let Some(meaning) = numbers::accepted(out, codes::decode(code)) {
        let op = meaning.operation;
        numbers::put_flag(out, 1, op.write);
        out[2] = op.unit as u8;
        numbers::put(out, 3, op.address.to_be_bytes());
        out[7] = meaning.lanes;
    }
}

// Call 4.
pub(crate) fn encode(call: &[u8; 64], out: &mut [u8; 64]) {
    let op = Operation {
        write: numbers::flag(call[1]),
        unit: unit_of(call[2]),
        address: numbers::word_at(call, 3),
    };
    if let Some(code) = numbers::accepted(out, codes::encode(op)) {
        numbers::put_flag(out, 1, code.tm1);
        numbers::put_flag(out, 2, code.tm0);
        numbers::put(out, 3, code.ad.to_be_bytes());
    }
}

// A status as the number of its lines TM1 TM0 (001, table 2.4), here and in call 9.
pub(crate) fn status_number(status: Status) -> u8 {
    let lines = codes::status_lines(status);
    basics::one_if(lines.tm1) * 2 + basics::one_if(lines.tm0)
}

pub(crate) fn status_of(number: u8) -> Status {
    codes::status_of(number / 2 % 2 == 1, number % 2 == 1)
}

// Call 5.
pub(crate) fn status(call: &[u8; 64], out: &mut [u8; 64]) {
    let status = codes::status_of(numbers::flag(call[1]), numbers::flag(call[2]));
    out[1] = status_number(status);
}

// Call 6.
pub(crate) fn parity(call: &[u8; 64], out: &mut [u8; 64]) {
    let ad = numbers::word_at(call, 1);
    numbers::put_flag(out, 1, codes::parity(ad));
}

// Call 7.
pub(crate) fn contest(call: &[u8; 64], out: &mut [u8; 64]) {
    let set = numbers::half_at(call, 1);
    out[1] = contest::settle(set);
    if let Some(slot) = contest::contest(set) {
        out[2] = 1;
        out[3] = slot;
    }
}
