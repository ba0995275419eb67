// Sets of slots 0 to 15, as the bits of a u16. A slot over 15 is in no set: every function takes every input.
// Stays: functions of a u16 and no type of its own, since the driver's callers, `Bus` and `Demand` hold sets as numbers, and 01's lines are one too.
#![tactic(auto)]

ghost use Rattle.std.specs.Prelude.{◌≡◌, cond, ltb};
ghost use Rattle.slots.specs.Set.{mem, including, without, top, card};

// The slot is in the set.
pub fn member(set: u16, slot: u8) -> bool
    ensures { result ≡ mem slot set }
{
    if slot < 16 {
        (set >> slot) % 2 == 1
    } else {
        false
    }
}

// The set with the slot; a slot over 15 can't be put in.
pub fn with(set: u16, slot: u8) -> u16
    ensures { result ≡ cond (ltb slot 16) (including slot set) set }
{
    if slot < 16 {
        if member(set, slot) {
            set
        } else {
            set + (1 << slot)
        }
    } else {
        set
    }
}

// The set without the slot, which it may lack already.
pub fn without(set: u16, slot: u8) -> u16
    ensures { result ≡ without slot set }
{
    if member(set, slot) {
        set - (1 << slot)
    } else {
        set
    }
}

// The highest member, and 0 for the empty set.
pub fn highest(set: u16) -> u8
    ensures { result ≡ top set }
{
    if set == 0 { 0 } else { set.ilog2() as u8 }
}

// How many slots are in the set.
pub fn size(set: u16) -> u32
    ensures { result ≡ card set }
{
    set.count_ones()
}
