// The arbitration contest (001, 2.7.1): the ARB lines settle at the highest contesting slot.
// The lines stand as the bits of a number, bit 1 for an active line; so does the set of contesting slots.
#![tactic(auto)]

ghost use Rattle.std.specs.Prelude.{◌≡◌, ◌||◌, not, ◌<◌};
ghost use Rattle.basics.specs.Lines.{active};
ghost use Rattle.contest.specs.Contest.{drives, driven, Settles, winner_of};
ghost use Rattle.contest.specs.Walk.{with_line, settle_from};

use slots::{member, with};

// The slot's number has the line.
fn has(id: u8, line: u8) -> bool
    ensures { result ≡ active line id }
{
    member(id as u16, line)
}

// The slot's number has the line, or the line is inactive (ID + ARB/).
fn keeps(id: u8, lines: u16, line: u8) -> bool
    ensures { result ≡ (active line id || not (active line lines)) }
{
    has(id, line) | !member(lines, line)
}

// 001's equations: a master that contests drives a line of its number while it lacks no higher line that is active.
// Stays: `line < 4` in four clauses: document 01 has the recursion over the line number, and a type of lines would be the number with its bound.
fn drives(line: u8, arb: bool, id: u8, lines: u16) -> bool
    requires { line < 4 }
    ensures { result ≡ drives line arb id lines }
{
    let own = arb & has(id, line);
    let keeps3 = keeps(id, lines, 3);
    let keeps2 = keeps(id, lines, 2);
    let keeps1 = keeps(id, lines, 1);
    match line {
        3 => own,
        2 => own & keeps3,
        1 => own & keeps3 & keeps2,
        _ => own & keeps3 & keeps2 & keeps1,
    }
}

// Some contestant drives the line.
fn is_driven(line: u8, set: u16, lines: u16) -> bool
    requires { line < 4 }
    ensures { result ≡ driven line set lines }
{
    (0..16).any(|slot| drives(line, member(set, slot), slot, lines))
}

// The higher lines with the next one, worked out from them.
fn with_line(line: u8, set: u16, higher: u16) -> u16
    requires { line < 4 }
    ensures { result ≡ with_line line set higher }
{
    if is_driven(line, set, higher) {
        with(higher, line)
    } else {
        higher
    }
}

// The line number falls from ARB3 to ARB0; the settled higher lines are carried on.
fn settle_from(line: u8, set: u16, higher: u16) -> u16
    requires { line < 4 }
    ensures { result ≡ settle_from line set higher }
{
    let lines = with_line(line, set, higher);
    if line == 0 {
        lines
    } else {
        settle_from(line - 1, set, lines)
    }
}

// The settled ARB lines of a set of contesting slots; 0 where none contests.
pub fn settle(set: u16) -> u8
    ensures { Settles set result }
{
    settle_from(3, set, 0) as u8
}

// The winner, if there is one. Slot 0 alone leaves all lines inactive and still wins: ARB 0 alone doesn't say that nobody contests.
#[tactic(auto, using(crate::proofs::Winners::nobody_wins, crate::proofs::Winners::top_wins))]
pub fn contest(set: u16) -> Option<u8>
    ensures { result ≡ winner_of set }
{
    let lines = settle(set);
    if set == 0 { None } else { Some(lines) }
}
