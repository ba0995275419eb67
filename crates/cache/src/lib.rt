// The cache block tables (document 01, "Cache blocks"): states and copies, sixteen to a block by slot, and memory, a word to a block.
#![tactic(auto)]

ghost use Rattle.std.specs.Prelude.{◌≡◌, cond, true, ◌&&◌, ◌+◌, ◌≤◌, ◌<◌, length, get_or, set, ltb};
ghost use Rattle.cache.specs.States.{owned_shared, legal, valid, private, owns};
ghost use Rattle.cache.specs.Block.{owner_below, sound, all_sound, coherent};
ghost use Rattle.cache.specs.Operations.{value_read, copy_left, block_read, block_written};
ghost use Rattle.cache.specs.Tables.{tables, entries, block_at, placed};
ghost use Rattle.basics.specs.Answers.{call_number};
ghost use Rattle.cache.specs.Answers.{answer_of};
ghost use Rattle.cache.specs.Calls.{fit, named, refusal, read_of, after_read, after_write, after_evict};

use basics::{Refusal, pick};

// The states. Only these lines, and `is_legal` below by the last of them, spell a state's number.
pub const INVALID: u8 = 0;

pub const UNOWNED: u8 = 1;

pub const OWNED_SHARED: u8 = 2;

pub const OWNED_PRIVATE: u8 = 3;

// "No state is over 3."
fn is_legal(state: u8) -> bool
    ensures { result ≡ legal state }
{
    state <= OWNED_PRIVATE
}

fn is_valid(state: u8) -> bool
    ensures { result ≡ valid state }
{
    state != INVALID
}

fn is_private(state: u8) -> bool
    ensures { result ≡ private state }
{
    state == OWNED_PRIVATE
}

fn is_owner(state: u8) -> bool
    ensures { result ≡ owns state }
{
    (state == OWNED_SHARED) | is_private(state)
}

// The slot that owns the block whose entries start at base, 16 where none does.
// Stays: 16 and no Option, whose slot would need its bound in each contract; `base + 16 ≤ length`, (base, owner, word) and (copy, state) side by side,
// and loops over `base + slot`, since the calls' contracts speak of whole tables (`after_read`), into which a block lent apart would have to be put back.
fn owner_of(states: &[u8], base: usize) -> u8
    requires { base + 16 ≤ length states.now }
    ensures { result ≡ owner_below (entries states.now base) 16 }
{
    let mut owner: u8 = 16;
    for (slot, state) in states[base..base + 16].iter().enumerate() {
        owner = pick(is_owner(*state), slot as u8, owner);
    }
    owner
}

// The owner's copy, or else memory's word.
fn supply(copies: &[u32], base: usize, owner: u8, word: u32) -> u32
    requires { base + 16 ≤ length copies.now }
    ensures { result ≡ cond (ltb owner 16) (entries copies.now base owner) word }
{
    if owner < 16 {
        copies[base + owner as usize]
    } else {
        word
    }
}

// A private owner guards the block: its fellows are all invalid.
fn is_guarded(states: &[u8], base: usize, owner: u8) -> bool
    requires { base + 16 ≤ length states.now }
    ensures { result ≡ (ltb owner 16 && private (entries states.now base owner)) }
{
    owner < 16 && is_private(states[base + owner as usize])
}

// One slot of a coherent block, which may own only as the owner found (itself), and be valid only with the block's value and, where a
// private owner holds the block, only as that owner.
fn is_sound(state: u8, copy: u32, itself: bool, held: bool, value: u32) -> bool
    ensures { result ≡ sound state copy itself held value }
{
    is_legal(state)
        & (!is_owner(state) | itself)
        & (!is_valid(state) | ((copy == value) & (!held | itself)))
}

fn all_sound(states: &[u8], copies: &[u32], base: usize, owner: u8, held: bool, value: u32) -> bool
    requires { (base + 16 ≤ length states.now) × (base + 16 ≤ length copies.now) }
    ensures { result ≡ all_sound (entries states.now base) (entries copies.now base) owner held value 16 }
{
    let mut all = true;
    for k in 0..16 {
        let at = base + k as usize;
        all &= is_sound(states[at], copies[at], k == owner, held, value);
    }
    all
}

// Document 01's "coherent" in two passes over the slots: find an owner, then hold every slot to what that owner, or memory, has.
fn is_coherent(states: &[u8], copies: &[u32], base: usize, word: u32) -> bool
    requires { (base + 16 ≤ length states.now) × (base + 16 ≤ length copies.now) }
    ensures { result ≡ coherent (block_at states.now copies.now base word) }
{
    let owner = owner_of(states, base);
    let common = supply(copies, base, owner, word);
    let held = is_guarded(states, base, owner);
    all_sound(states, copies, base, owner, held, common)
}

// The bound comes first, so that 16 times the words can't overflow.
fn is_fit(states: usize, copies: usize, words: usize) -> bool
    ensures { result ≡ fit states copies words }
{
    words <= 64 && (1 <= words) & (states == 16 * words) & (copies == 16 * words)
}

fn is_named(block: usize, slot: u8, words: usize) -> bool
    ensures { result ≡ named block slot words }
{
    (slot <= 15) & (block < words)
}

// What a call would be refused for: 1, 2, 7, in this order.
fn check(
    states: &[u8],
    copies: &[u32],
    memory: &[u32],
    block: usize,
    slot: u8,
) -> Result<(), Refusal>
    ensures { call_number result ≡ refusal (tables states.now copies.now memory.now) block slot }
{
    if !is_fit(states.len(), copies.len(), memory.len()) {
        return Err(Refusal::Length);
    }
    if !is_named(block, slot, memory.len()) {
        return Err(Refusal::Place);
    }
    if !is_coherent(states, copies, 16 * block, memory[block]) {
        return Err(Refusal::Incoherent);
    }
    Ok(())
}

// The owner becomes owned shared.
fn share(states: &mut [u8], base: usize, owner: u8)
    requires { base + 16 ≤ length states.old }
    ensures { states.new ≡ cond (ltb owner 16) (set states.old (base + owner) owned_shared) states.old }
{
    if owner < 16 {
        states[base + owner as usize] = OWNED_SHARED;
    }
}

// A read that is not refused, of the block whose entries start at base.
fn read_block(states: &mut [u8], copies: &mut [u32], base: usize, slot: u8, word: u32) -> u32
    requires { (base + 16 ≤ length states.old) × (base + 16 ≤ length copies.old) × (slot < 16) × (coherent (block_at states.old copies.old base word) ≡ true) }
    ensures value { result ≡ value_read (block_at states.old copies.old base word) slot }
    ensures states { states.new ≡ placed states.old base (block_read (block_at states.old copies.old base word) slot).state 16 }
    ensures copies { copies.new ≡ placed copies.old base (block_read (block_at states.old copies.old base word) slot).copy 16 }
{
    let at = base + slot as usize;
    if is_valid(states[at]) {
        return copies[at];
    }
    let owner = owner_of(states, base);
    let value = supply(copies, base, owner, word);
    share(states, base, owner);
    states[at] = UNOWNED;
    copies[at] = value;
    value
}

// "Read: valid, the copy. Invalid, the owner's copy (the owner becomes owned shared) or else memory; the reader becomes unowned." It then
// holds what it read as its copy.
pub fn read(
    states: &mut [u8],
    copies: &mut [u32],
    memory: &[u32],
    block: usize,
    slot: u8,
) -> Result<u32, Refusal>
    ensures answer { answer_of result ≡ read_of (tables states.old copies.old memory.now) block slot }
    ensures tables { tables states.new copies.new memory.now ≡ after_read (tables states.old copies.old memory.now) block slot }
{
    check(states, copies, memory, block, slot)?;
    Ok(read_block(states, copies, 16 * block, slot, memory[block]))
}

// "A valid slot that becomes invalid gets copy 0; one invalid already keeps its copy."
fn copy_left(state: u8, copy: u32) -> u32
    ensures { result ≡ copy_left state copy }
{
    if is_valid(state) { 0 } else { copy }
}

// A write that is not refused, of the block whose entries start at base. It doesn't look at memory's word, so the contract has 0 there.
fn write_block(states: &mut [u8], copies: &mut [u32], base: usize, slot: u8, value: u32)
    requires { (base + 16 ≤ length states.old) × (base + 16 ≤ length copies.old) }
    ensures states { states.new ≡ placed states.old base (block_written (block_at states.old copies.old base 0) slot value).state 16 }
    ensures copies { copies.new ≡ placed copies.old base (block_written (block_at states.old copies.old base 0) slot value).copy 16 }
{
    for each in 0..16 {
        let at = base + each as usize;
        let left = copy_left(states[at], copies[at]);
        states[at] = pick(each == slot, OWNED_PRIVATE, INVALID);
        copies[at] = pick(each == slot, value, left);
    }
}

// "Write: every other slot becomes invalid, the writer private with the new value." Memory is lent to be read only.
pub fn write(
    states: &mut [u8],
    copies: &mut [u32],
    memory: &[u32],
    block: usize,
    slot: u8,
    value: u32,
) -> Result<(), Refusal>
    ensures number { call_number result ≡ refusal (tables states.old copies.old memory.now) block slot }
    ensures tables { tables states.new copies.new memory.now ≡ after_write (tables states.old copies.old memory.now) block slot value }
{
    check(states, copies, memory, block, slot)?;
    write_block(states, copies, 16 * block, slot, value);
    Ok(())
}

// An owner's copy goes to memory.
fn write_back(memory: &mut [u32], block: usize, state: u8, copy: u32)
    requires { block < length memory.old }
    ensures { memory.new ≡ set memory.old block (cond (owns state) copy (get_or memory.old block 0)) }
{
    if is_owner(state) {
        memory[block] = copy;
    }
}

// "Evict: an owner's copy goes to memory; the slot becomes invalid." Evicting an invalid slot is accepted and changes nothing.
pub fn evict(
    states: &mut [u8],
    copies: &mut [u32],
    memory: &mut [u32],
    block: usize,
    slot: u8,
) -> Result<(), Refusal>
    ensures number { call_number result ≡ refusal (tables states.old copies.old memory.old) block slot }
    ensures tables { tables states.new copies.new memory.new ≡ after_evict (tables states.old copies.old memory.old) block slot }
{
    check(states, copies, memory, block, slot)?;
    let at = 16 * block + slot as usize;
    let state = states[at];
    let copy = copies[at];
    write_back(memory, block, state, copy);
    states[at] = INVALID;
    copies[at] = copy_left(state, copy);
    Ok(())
}
