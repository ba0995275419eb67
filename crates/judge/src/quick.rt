// The quick way (document 01, "The judge"): most records break no rule, and few tests see that of a record that follows another. What they
// do not decide is judged rule by rule.
ghost use Rattle.std.specs.Prelude.{◌≡◌, ◌+◌, ◌/◌, ◌^◌, ◌≤◌, ◌<◌, length, IfSome};
ghost use Rattle.rules.specs.State.{diff_of};
ghost use Rattle.rules.specs.Run.{step_of};
ghost use Rattle.judge.specs.Quick.{WaveKept, Ready, waited_of, started_of, turn_holds, start_holds, request_holds, ack_holds, quiet_holds, plainly, StartKept, AckKept, QuietKept, Left};

use crate::after;
use breach::AGE_MOST;
use record::Record;
use rules::{Judge, Progress, Tally, Transfer, Wave};

// How far a part has been judged: so many records, and the state and the tally after them.
#[derive(Clone, Copy)]
pub(crate) struct Reached {
    pub(crate) done: usize,
    pub(crate) judge: Judge,
    pub(crate) tally: Tally,
}

// Stays: a wave and the record's RQST go as two values, here and below, since `waited_of`, `started_of` and `request_holds` (specs/Quick) take them so.
fn waited(wave: Wave, rqst: bool) -> Wave
    requires { WaveKept wave }
    ensures { result ≡ waited_of wave rqst }
{
    Wave {
        rqst,
        prior: wave.rqst,
        since: wave.since + basics::one_if(wave.since < 3),
        ..wave
    }
}

fn started(wave: Wave, rqst: bool, arb: u8) -> Wave
    requires { wave.turn ≤ 16 }
    ensures { result ≡ started_of wave rqst arb }
{
    let of_wave = wave.rqst & rqst;
    let again = basics::pick(arb == wave.arb, wave.turn + 1, 1);
    Wave {
        rqst,
        prior: wave.rqst,
        owner: after::next_owner(wave.rqst, arb, wave.owner),
        since: basics::pick(of_wave, 0, 3),
        arb: basics::pick(of_wave, arb, 15),
        turn: basics::pick(of_wave, again, 0),
    }
}

fn turn_holds(limit: u8, wave: Wave, arb: u8, d: u32) -> bool
    ensures { result ≡ turn_holds limit wave arb d }
{
    (d == 1)
        & wave.prior
        & (2 <= wave.since)
        & (arb <= wave.arb)
        & (!(arb == wave.arb) | (wave.turn < limit))
}

#[tactic(auto, unfolding(crate::specs::Quick::start_holds))]
fn start_holds(busy: bool, words: u8, wave: Wave, in_turn: bool, ack: bool) -> bool
    ensures { result ≡ start_holds busy words wave in_turn ack }
{
    !busy & !ack & (0 < words) & (wave.rqst | wave.owner.is_some()) & (!wave.rqst | in_turn)
}

fn request_holds(wave: Wave, rqst: bool, d: u32) -> bool
    ensures { result ≡ request_holds wave rqst d }
{
    !wave.rqst | ((d == 1) & rqst)
}

fn ack_holds(transfer: Transfer, tm1: bool, tm0: bool, d: u32) -> bool
    ensures { result ≡ ack_holds transfer tm1 tm0 d }
{
    match transfer {
        Transfer::Idle => false,
        Transfer::Open {
            words,
            strobes,
            age,
            ..
        } => {
            (age as u64 + d as u64 <= AGE_MOST)
                & (!(tm1 & tm0) | (strobes as u32 + 1 == words as u32))
        }
    }
}

fn quiet_holds(transfer: Transfer, tm0: bool, d: u32) -> bool
    ensures { result ≡ quiet_holds transfer tm0 d }
{
    match transfer {
        Transfer::Idle => true,
        Transfer::Open {
            words,
            strobes,
            age,
            ..
        } => {
            let with = strobes as u32 + 1;
            (age as u64 + d as u64 <= AGE_MOST) & (!((1 < words) & tm0) | (with < words as u32))
        }
    }
}

// After a START without ACK.
fn after_start(judge: Judge, tally: Tally, lines: Record, words: u8, d: u32) -> Progress
    requires { StartKept judge tally lines words d }
    ensures { (result.rule ≡ 0) × (result ≡ step_of judge tally (record { lines = lines; spare = 0 })) }
{
    let transfer = Transfer::Open {
        words,
        strobes: 0,
        age: 0,
        busy: 1,
    };
    let wave = started(judge.wave, lines.rqst, lines.arb);
    let next = after::state_after(judge, lines.stamp, transfer, wave);
    after::unbroken(judge, tally, lines, d, next)
}

// After an ACK without START.
fn after_ack(judge: Judge, tally: Tally, lines: Record, d: u32) -> Progress
    requires { AckKept judge tally lines d }
    ensures { (result.rule ≡ 0) × (result ≡ step_of judge tally (record { lines = lines; spare = 0 })) }
{
    let wave = waited(judge.wave, lines.rqst);
    let next = after::state_after(judge, lines.stamp, Transfer::Idle, wave);
    after::unbroken(judge, tally, lines, d, next)
}

// After a record with neither.
fn after_quiet(judge: Judge, tally: Tally, lines: Record, d: u32) -> Progress
    requires { QuietKept judge tally lines d }
    ensures { (result.rule ≡ 0) × (result ≡ step_of judge tally (record { lines = lines; spare = 0 })) }
{
    let transfer = after::aged(judge.transfer, lines, d);
    let wave = waited(judge.wave, lines.rqst);
    let next = after::state_after(judge, lines.stamp, transfer, wave);
    after::unbroken(judge, tally, lines, d, next)
}

// Rules 1 and 2 of a record that is not the first, rule 3, and no RESET.
fn plain(spare: u16, d: u32, reset: bool, parity: bool) -> bool
    ensures { result ≡ plainly spare d reset parity }
{
    (spare == 0) & (1 <= d) & (d <= 2147483648) & !reset & parity
}

// Judges a record where one was judged before, if it can be done with few tests; nothing is said of one that `judge_one` has to look at.
fn quick(judge: Judge, tally: Tally, lines: Record, spare: u16, d: u32) -> Option<Progress>
    requires { Ready judge tally × ((tally.records < 2 ^ 30) × (d ≡ diff_of judge lines.stamp)) }
    ensures { IfSome result (λ p. (p.rule ≡ 0) × (p ≡ step_of judge tally (record { lines = lines; spare = spare }))) }
{
    let open = judge.transfer;
    let wave = judge.wave;
    let parity = breach::parity_right(lines.spv, lines.sp, codes::parity(lines.ad));
    let first = plain(spare, d, lines.reset, parity);
    if !first {
        return None;
    }
    if lines.start {
        let words = codes::words_owed(lines.tm0, lines.ad);
        let in_turn = turn_holds(judge.limit, wave, lines.arb, d);
        let starts = start_holds(rules::is_open(open), words, wave, in_turn, lines.ack);
        if starts {
            return Some(after_start(judge, tally, lines, words, d));
        }
        return None;
    }
    let asks = request_holds(wave, lines.rqst, d);
    if !asks {
        return None;
    }
    if lines.ack {
        let ends = ack_holds(open, lines.tm1, lines.tm0, d);
        if ends {
            return Some(after_ack(judge, tally, lines, d));
        }
        return None;
    }
    let waits = quiet_holds(open, lines.tm0, d);
    if waits {
        return Some(after_quiet(judge, tally, lines, d));
    }
    None
}

// Judges the records of a part, up to the first that is not decided quickly. Just the record's sixteen bytes are lent, so that the compiler sees that
// there are enough and leaves out the tests of it.
pub(crate) fn quick_run(part: &[u8], judge: Judge, tally: Tally) -> Reached
    requires { Ready judge tally × (tally.records + length part.now / 16 ≤ 2 ^ 30) }
    ensures { Left part.now judge tally result }
{
    let n = part.len() / 16;
    let mut state = judge;
    let mut totals = tally;
    for i in 0..n {
        let at = i * 16;
        let sixteen = &part[at..at + 16];
        let lines = record::lines_in(sixteen);
        let spare = record::spare_in(sixteen);
        let d = breach::difference(state, lines.stamp);
        let Some(next) = quick(state, totals, lines, spare, d) else {
            return Reached {
                done: i,
                judge: state,
                tally: totals,
            };
        };
        state = next.judge;
        totals = next.tally;
    }
    Reached {
        done: n,
        judge: state,
        tally: totals,
    }
}
