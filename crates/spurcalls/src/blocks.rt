// Calls 11 to 18: the cache tables for 64 blocks and one more, and the lengths under which they are lent.
ghost use Rattle.std.specs.Prelude.{◌<◌};

use crate::numbers;

#[derive(Clone, Copy)]
struct Sizes {
    memory: usize,
    states: usize,
    copies: usize,
}

// The tables whole, and how many entries of each are lent to the library.
#[derive(Clone, Copy)]
pub(crate) struct Tables {
    states: [u8; 1040],
    copies: [u32; 1040],
    memory: [u32; 65],
    lent: Sizes,
}

// Tables of zeros, lent for 64 blocks.
pub(crate) fn first_tables() -> Tables {
    Tables {
        states: [0; 1040],
        copies: [0; 1040],
        memory: [0; 65],
        lent: Sizes {
            memory: 64,
            states: 1024,
            copies: 1024,
        },
    }
}

// Call 11.
pub(crate) fn set_sizes(call: &[u8; 64], tables: &mut Tables) {
    tables.lent = Sizes {
        memory: numbers::size(call[1]),
        states: numbers::half_at(call, 2) as usize,
        copies: numbers::half_at(call, 4) as usize,
    };
}

// The block that a byte names, and the place of a slot's entries in it, taken modulo how many there are.
fn block_of(byte: u8) -> usize
    ensures { result < 64 }
{
    numbers::size(byte % 64)
}

fn place(block: u8, slot: u8) -> usize
    ensures { result < 1024 }
{
    block_of(block) * 16 + numbers::size(slot % 16)
}

// Call 12.
pub(crate) fn set_memory(call: &[u8; 64], tables: &mut Tables) {
    tables.memory[block_of(call[1])] = numbers::word_at(call, 2);
}

// Call 13.
pub(crate) fn set_copy(call: &[u8; 64], tables: &mut Tables) {
    let at = place(call[2], call[1]);
    tables.states[at] = call[3];
    tables.copies[at] = numbers::word_at(call, 4);
}

// Calls 14 to 16, on the first parts of the tables, which are lent.
// Stays: a match on the call's number (CALLS.md lists them), since what the three take and answer differs.
fn on_parts(
    call: &[u8; 64],
    out: &mut [u8; 64],
    lent: Sizes,
    states: &mut [u8; 1040],
    copies: &mut [u32; 1040],
    memory: &mut [u32; 65],
) {
    let slot = call[1];
    let block = numbers::size(call[2]);
    let states = &mut states[..lent.states.min(1040)];
    let copies = &mut copies[..lent.copies.min(1040)];
    let memory = &mut memory[..lent.memory.min(65)];
    match call[0] {
        14 => {
            let read = cache::read(states, copies, memory, block, slot);
            if let Some(value) = numbers::accepted(out, read) {
                numbers::put(out, 1, value.to_be_bytes());
            }
        }
        15 => {
            let value = numbers::word_at(call, 3);
            let written = cache::write(states, copies, memory, block, slot, value);
            numbers::accepted(out, written);
        }
        _ => {
            let evicted = cache::evict(states, copies, memory, block, slot);
            numbers::accepted(out, evicted);
        }
    }
}

// The same on the tables where they lie: a pattern lends their fields at once, and no table is copied.
pub(crate) fn on_lent(call: &[u8; 64], out: &mut [u8; 64], tables: &mut Tables) {
    let Tables {
        states,
        copies,
        memory,
        lent,
    } = tables;
    on_parts(call, out, *lent, states, copies, memory);
}

// Call 17.
pub(crate) fn put_states(call: &[u8; 64], out: &mut [u8; 64], tables: &Tables) {
    let block = block_of(call[1]);
    numbers::put(out, 1, tables.memory[block].to_be_bytes());
    let first = block * 16;
    out[5..21].copy_from_slice(&tables.states[first..first + 16]);
}

// Call 18.
pub(crate) fn put_copies(call: &[u8; 64], out: &mut [u8; 64], tables: &Tables) {
    let first = block_of(call[1]) * 16;
    let copies = &tables.copies[first..first + 16];
    for (bytes, copy) in out.chunks_exact_mut(4).zip(copies) {
        bytes.copy_from_slice(&copy.to_be_bytes());
    }
}
