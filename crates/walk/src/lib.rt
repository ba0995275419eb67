// Walking a recording record by record: the place of each record, the cycle in which it stands, counted from the first record's, and the gap before it.
// Nothing is judged.
#![tactic(auto)]

ghost use Rattle.std.specs.Prelude.{◌≡◌};
ghost use Rattle.basics.specs.Answers.{answered, call_number};
ghost use Rattle.walk.specs.Walks.{fresh_walk, walk_bounds, step_refusal, gap_before, stayed, step_of};

use basics::Refusal;
use record::Record;
use rules::Judge;

// How many records were walked, the cycle of the last one and its lines: all zeros before the first.
#[derive(Clone, Copy, Default)]
pub struct Walk {
    pub place: u32,
    pub cycle: u64,
    pub last: Record,
}

// What a step gives: the walk behind the record, and the record's gap.
#[derive(Clone, Copy)]
pub struct Walked {
    pub walk: Walk,
    pub gap: u32,
}

impl Walk {
    // Before the first record.
    pub fn fresh() -> Walk
        ensures { result ≡ fresh_walk }
    {
        Walk::default()
    }
}

// Each gap is below 2^32, so that this many cycles is the most.
#[tactic(auto, unfolding(crate::specs::Walks::walk_bounds))]
fn in_bounds(walk: Walk) -> bool
    ensures { result ≡ walk_bounds walk }
{
    (walk.place <= Judge::MOST_RECORDS) & (walk.cycle <= walk.place as u64 * 4294967296)
}

// Whether a walk may go on.
#[tactic(auto, unfolding(crate::specs::Walks::step_refusal))]
fn may_go_on(walk: Walk) -> Result<(), Refusal>
    ensures { call_number result ≡ step_refusal walk }
{
    if !in_bounds(walk) {
        return Err(Refusal::Bounds);
    }
    let room = walk.place < Judge::MOST_RECORDS;
    if !room {
        return Err(Refusal::TooMany);
    }
    Ok(())
}

// "The stamp's difference to the last one, modulo 2^32"; the first record has none.
#[tactic(auto, unfolding(crate::specs::Walks::gap_before))]
fn gap_before(walk: Walk, stamp: u32) -> u32
    ensures { result ≡ gap_before walk stamp }
{
    if walk.place == 0 {
        0
    } else {
        stamp.wrapping_sub(walk.last.stamp)
    }
}

// Goes on by one record. A walk out of bounds is refused by 5, a record past 2^30 by 8: the caller has the walk as it was.
pub fn step(walk: Walk, lines: Record) -> Result<Walked, Refusal>
    ensures { answered (stayed walk) result ≡ step_of walk lines }
{
    may_go_on(walk)?;
    let gap = gap_before(walk, lines.stamp);
    let walk = Walk {
        place: walk.place + 1,
        cycle: walk.cycle + gap as u64,
        last: lines,
    };
    Ok(Walked { walk, gap })
}
