// Calls 19 to 22: the judge and its tally, a recording's next bytes, and both set raw. The account is kept with them, and is the calls' of `account`.
ghost use Rattle.std.specs.Prelude.{◌≡◌};
ghost use Rattle.rules.specs.Verdict.{outcome_of, judged_of};

use crate::{account, numbers};
use basics::Refusal;
use entries::Entry;
use rules::{Judge, Judged, Tally, Transfer, Verdict, Wave};

// What lasts from call to call.
#[derive(Clone, Copy)]
pub(crate) struct Bench {
    pub(crate) judge: Judge,
    pub(crate) tally: Tally,
    pub(crate) account: [Entry; 17],
}

// A judge that has judged nothing, with a tally and an account of zeros.
fn with_judge(judge: Judge) -> Bench {
    Bench {
        judge,
        tally: Tally::zero(),
        account: account::zeros(),
    }
}

// Before the first call: a fresh judge, limit 16.
pub(crate) fn first_bench() -> Bench {
    with_judge(Judge::fresh(16).unwrap())
}

// Call 19. A refused one leaves judge, tally and account.
pub(crate) fn fresh(call: &[u8; 64], out: &mut [u8; 64], bench: Bench) -> Bench {
    match numbers::accepted(out, Judge::fresh(call[1])) {
        Some(judge) => with_judge(judge),
        None => bench,
    }
}

fn put_totals(out: &mut [u8; 64], tally: Tally, open: bool) {
    numbers::put(out, 6, tally.records.to_be_bytes());
    numbers::put(out, 10, tally.span.to_be_bytes());
    numbers::put(out, 18, tally.starts.to_be_bytes());
    numbers::put(out, 22, tally.acks.to_be_bytes());
    numbers::put(out, 26, tally.aborted.to_be_bytes());
    numbers::put_flag(out, 30, open);
}

fn put_verdict(out: &mut [u8; 64], verdict: Verdict) {
    match verdict {
        Verdict::Conforming => {}
        Verdict::Breach(broken) => {
            out[1] = broken.rule;
            numbers::put(out, 2, broken.place.to_be_bytes());
            out[31] = broken.kind;
            numbers::put(out, 32, broken.span.to_be_bytes());
        }
        Verdict::OutOfBounds => {
            out[0] = Refusal::Bounds.number();
        }
        Verdict::TooMany => {
            out[0] = Refusal::TooMany.number();
        }
        Verdict::Torn => {
            out[0] = Refusal::Length.number();
        }
    }
}

// What the judge says, and the tally that it leaves.
#[derive(Clone, Copy)]
struct Answered {
    judged: Judged,
    tally: Tally,
}

// A recording's next bytes, judged with the tally lent to the library as document 01 has it.
fn judge_lent(bytes: &[u8], state: Judge, totals: Tally) -> Answered
    ensures { (result.judged ≡ judged_of (outcome_of bytes.now state totals)) × (result.tally ≡ (outcome_of bytes.now state totals).tally) }
{
    let mut tally = totals;
    let judged = judge::judge_recording(bytes, state, &mut tally);
    Answered { judged, tally }
}

// The answer of a judging call.
pub(crate) fn put_judged(out: &mut [u8; 64], judged: Judged, tally: Tally) {
    put_verdict(out, judged.verdict);
    put_totals(out, tally, rules::is_open(judged.judge.transfer));
}

// Call 20. It judges without the account, and leaves it as it is.
pub(crate) fn judge(call: &[u8; 64], out: &mut [u8; 64], bench: Bench) -> Bench {
    let n = numbers::size(call[1].min(48));
    let answered = judge_lent(&call[2..2 + n], bench.judge, bench.tally);
    put_judged(out, answered.judged, answered.tally);
    Bench {
        judge: answered.judged.judge,
        tally: answered.tally,
        ..bench
    }
}

// Call 21.
pub(crate) fn set_tally(call: &[u8; 64], bench: Bench) -> Bench {
    let tally = Tally {
        records: numbers::word_at(call, 1),
        span: numbers::long_at(call, 5),
        starts: numbers::word_at(call, 13),
        acks: numbers::word_at(call, 17),
        aborted: numbers::word_at(call, 21),
    };
    Bench { tally, ..bench }
}

// A transfer set open has been busy for its age and one cycle.
fn transfer_of(open: bool, words: u8, strobes: u8, age: u16) -> Transfer {
    if open {
        Transfer::Open {
            words,
            strobes,
            age,
            busy: age as u32 + 1,
        }
    } else {
        Transfer::Idle
    }
}

// Call 22. The rest of the judge's state is kept.
pub(crate) fn set_judge(call: &[u8; 64], bench: Bench) -> Bench {
    let age = numbers::half_at(call, 3);
    let before = bench.judge;
    let judge = Judge {
        limit: call[1],
        transfer: transfer_of(numbers::flag(call[2]), call[5], call[6], age),
        wave: Wave {
            arb: call[8],
            turn: call[7],
            ..before.wave
        },
        ..before
    };
    Bench { judge, ..bench }
}
