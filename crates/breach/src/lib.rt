// Which rule a record breaks (document 01, "The judge": "For each record, lowest number first: .."), by what the judge's state says of the
// cycles before. What the state is after a record that breaks none stands in the crate `judge`; the definitions of both, in `rules`.
#![tactic(auto)]

ghost use Rattle.std.specs.Prelude.{◌≡◌};
ghost use Rattle.rules.specs.Rules.{rule1, rule2, rule3, rule4, rule5, rule6, rule7, rule8a, rule8b, rule8c, rule9, rule10, rule11, rule12, rule13};
ghost use Rattle.rules.specs.State.{is_owned, asked_of, twice_of, diff_of};
ghost use Rattle.rules.specs.Run.{lowest, later_rules, rule_of};

use record::Record;
use rules::{Judge, Rule, Wave};

// The watchdog, as the sums of ages are.
pub const AGE_MOST: u64 = Judge::WATCHDOG as u64;

// ---- what the judge's state says of the cycles before

// "The stamp's difference to the last one, modulo 2^32"; the first record has none.
#[tactic(auto, unfolding(rules::specs::State::diff_of))]
pub fn difference(judge: Judge, stamp: u32) -> u32
    ensures { result ≡ diff_of judge stamp }
{
    let seen = judge.seen;
    if seen {
        stamp.wrapping_sub(judge.stamp)
    } else {
        0
    }
}

// RQST one cycle before this record, and two cycles before it.
pub fn asked(wave: Wave, d: u32) -> bool
    ensures { result ≡ asked_of wave d }
{
    (d == 1) & wave.rqst
}

fn asked_twice(wave: Wave, d: u32) -> bool
    ensures { result ≡ twice_of wave d }
{
    ((d == 1) & wave.prior) | ((d == 2) & wave.rqst)
}

// ---- the thirteen rules, each by its number in document 01

// Stays: START, ACK, RQST before and the stamp's difference go as values of their own, since each rule takes what its definition in rules/specs/Rules
// takes (`rule3` to `rule13`), as document 01 words it; a struct of them would say less of what a rule hangs on.
fn spare_zero(spare: u16) -> bool
    ensures { result ≡ rule1 spare }
{
    spare == 0
}

fn stamp_later(seen: bool, d: u32) -> bool
    ensures { result ≡ rule2 seen d }
{
    !seen | ((1 <= d) & (d <= 2147483648))
}

pub fn parity_right(spv: bool, sp: bool, odd: bool) -> bool
    ensures { result ≡ rule3 spv sp odd }
{
    !spv | (sp == odd)
}

fn start_while_idle(busy: bool, start: bool) -> bool
    ensures { result ≡ rule4 busy start }
{
    !(start & busy)
}

fn ack_while_open(busy: bool, start: bool, ack: bool) -> bool
    ensures { result ≡ rule5 busy start ack }
{
    !(ack & !start) | busy
}

fn attention_lines(start: bool, ack: bool, tm1: bool, tm0: bool) -> bool
    ensures { result ≡ rule6 start ack tm1 tm0 }
{
    !(start & ack) | (tm1 & tm0)
}

fn code_known(start: bool, ack: bool, words: u8) -> bool
    ensures { result ≡ rule7 start ack words }
{
    !(start & !ack) | (0 < words)
}

// Rule 8a.
fn parked_by_owner(start: bool, asked: bool, owner: Option<u8>) -> bool
    ensures { result ≡ rule8a start asked (is_owned owner) }
{
    !(start & !asked) | owner.is_some()
}

// Rule 8b.
fn asked_long(start: bool, asked: bool, twice: bool) -> bool
    ensures { result ≡ rule8b start asked twice }
{
    !(start & asked) | twice
}

// Rule 8c: `since` cycles after the wave's last START.
fn starts_apart(start: bool, asked: bool, since: u64) -> bool
    ensures { result ≡ rule8c start asked since }
{
    !(start & asked) | (3 <= since)
}

fn request_kept(last: bool, d: u32, rqst: bool, start: bool) -> bool
    ensures { result ≡ rule9 last d rqst start }
{
    !last | ((d == 1) & (rqst | start))
}

fn arb_falls(start: bool, asked: bool, arb: u8, last: u8) -> bool
    ensures { result ≡ rule10 start asked arb last }
{
    !(start & asked) | (arb <= last)
}

fn turn_within(limit: u8, start: bool, asked: bool, arb: u8, last: u8, turn: u8) -> bool
    ensures { result ≡ rule11 limit start asked arb last turn }
{
    !(start & asked & (arb == last)) | (turn < limit)
}

fn young(busy: bool, age: u16, d: u32) -> bool
    ensures { result ≡ rule12 busy age d }
{
    !busy | (age as u64 + d as u64 <= AGE_MOST)
}

// The strobes of an open block so far, this record's among them, and those at a successful ACK.
fn strobes_right(busy: bool, words: u8, strobes: u8, lines: Record) -> bool
    ensures { result ≡ rule13 busy words strobes lines.start lines.ack lines.tm1 lines.tm0 }
{
    let strobe = rules::is_strobe(words, lines.start, lines.ack, lines.tm0);
    let with = strobes as u32 + 1;
    (!(busy & strobe) | (with < words as u32))
        & (!(busy & lines.ack & lines.tm1 & lines.tm0) | (with == words as u32))
}

// ---- the lowest of them

// The rules from 3 up that apply to a record without RESET, in their order, and whether it keeps them.
fn later_rules(judge: Judge, lines: Record, d: u32) -> [(Rule, bool); 13]
    ensures { result ≡ later_rules judge lines d }
{
    let (start, ack, arb) = (lines.start, lines.ack, lines.arb);
    let wave = judge.wave;
    let busy = rules::is_open(judge.transfer);
    let open = judge.transfer.counts();
    let one = asked(wave, d);
    let two = asked_twice(wave, d);
    let since = wave.since as u64 + d as u64;
    let owed = codes::words_owed(lines.tm0, lines.ad);
    let odd = codes::parity(lines.ad);
    let within = turn_within(judge.limit, start, one, arb, wave.arb, wave.turn);
    let counted = strobes_right(busy, open.words, open.strobes, lines);
    [
        (Rule::only(3), parity_right(lines.spv, lines.sp, odd)),
        (Rule::only(4), start_while_idle(busy, start)),
        (Rule::only(5), ack_while_open(busy, start, ack)),
        (
            Rule::only(6),
            attention_lines(start, ack, lines.tm1, lines.tm0),
        ),
        (Rule::only(7), code_known(start, ack, owed)),
        (Rule::eighth(1), parked_by_owner(start, one, wave.owner)),
        (Rule::eighth(2), asked_long(start, one, two)),
        (Rule::eighth(3), starts_apart(start, one, since)),
        (Rule::only(9), request_kept(wave.rqst, d, lines.rqst, start)),
        (Rule::only(10), arb_falls(start, one, arb, wave.arb)),
        (Rule::only(11), within),
        (Rule::only(12), young(busy, open.age, d)),
        (Rule::only(13), counted),
    ]
}

// The first rule of a list that does not hold, and none where all do.
fn lowest(tests: [(Rule, bool); 13]) -> Rule
    ensures { result ≡ lowest tests }
{
    for (rule, holds) in tests {
        if !holds {
            return rule;
        }
    }
    Rule::default()
}

// The lowest rule that a record breaks, by number and kind, both 0 where it breaks none. "If RESET is active, .. no further rule applies."
#[tactic(auto, unfolding(rules::specs::Run::rule_of))]
pub fn rule_of(judge: Judge, lines: Record, spare: u16, d: u32) -> Rule
    ensures { result ≡ rule_of judge (record { lines = lines; spare = spare }) d }
{
    if !spare_zero(spare) {
        return Rule::only(1);
    }
    if !stamp_later(judge.seen, d) {
        return Rule::only(2);
    }
    if lines.reset {
        return Rule::default();
    }
    lowest(later_rules(judge, lines, d))
}
