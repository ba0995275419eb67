// The judge of recordings (document 01, "The judge"). Its types, and what they mean, stand in the crate `rules`.
//
// A record is judged in two ways. `judge_one` tests the thirteen rules one by one and finds the lowest that is broken. Most records break
// none, and `quick` sees that with few tests where the judge has judged a record before; what it does not decide, `judge_one` does.
#![tactic(auto)]

mod after;
mod bounds;
mod quick;

ghost use Rattle.std.specs.Prelude.{◌≡◌, List, ℕ, ◌+◌, ◌/◌, ◌^◌, ◌≤◌, ◌<◌, length, take};
ghost use Rattle.basics.specs.Answers.{call_number};
ghost use Rattle.rules.specs.Bounds.{SoundJudge, SoundTally};
ghost use Rattle.rules.specs.Run.{taken_in, span_of, broken, step_of, records_in, run_of, from as starting};
ghost use Rattle.rules.specs.Verdict.{refusal_of, verdict_of, outcome_of, judged_of};
ghost use Rattle.rules.specs.Exact.{After, Told};

use basics::Refusal;
pub use bounds::{judge_in_bounds, tally_in_bounds};
use record::Record;
use rules::{Broken, Judge, Judged, Outcome, Progress, Rule, Tally, Verdict};

// ---- one record

// The span that a breach tells (document 02, wish 2). At record 0 the difference is 0.
fn span_at(tally: Tally, number: u8, d: u32) -> u64
    requires { SoundTally tally × (tally.records < 2 ^ 30) }
    ensures { result ≡ span_of tally number d }
{
    if number <= 2 {
        return tally.span;
    }
    tally.span + d as u64
}

// A record that breaks this rule leaves state and tally as they were before it.
fn broken_at(judge: Judge, tally: Tally, rule: Rule, d: u32) -> Progress
    requires { SoundTally tally × (tally.records < 2 ^ 30) }
    ensures { result ≡ broken rule d judge tally }
{
    Progress {
        rule: rule.number,
        kind: rule.kind,
        span: span_at(tally, rule.number, d),
        judge,
        tally,
    }
}

// Judges a record rule by rule.
// Stays: a state and a tally go as two values, here and in `after` and `quick`, as the public `judge_all` takes them and `outcome_of` and `step_of` have
// them; and `SoundJudge`, `SoundTally` and the room for a record are said in each clause, since a caller's values may be any, and `refusal` answers 5 and 8.
fn judge_lines(judge: Judge, tally: Tally, lines: Record, spare: u16) -> Progress
    requires { SoundJudge judge × (SoundTally tally × (tally.records < 2 ^ 30)) }
    ensures { result ≡ step_of judge tally (record { lines = lines; spare = spare }) }
{
    let d = breach::difference(judge, lines.stamp);
    let rule = breach::rule_of(judge, lines, spare, d);
    if rule.number != 0 {
        return broken_at(judge, tally, rule, d);
    }
    let next = after::next_judge(judge, lines, d);
    after::unbroken(judge, tally, lines, d, next)
}

// Judges the record at the front of a part.
fn judge_one(judge: Judge, tally: Tally, part: &[u8]) -> Progress
    requires { SoundJudge judge × (SoundTally tally × ((tally.records < 2 ^ 30) × (16 ≤ length part.now))) }
    ensures { result ≡ step_of judge tally (taken_in (take 16 part.now)) }
{
    let lines = record::lines_in(part);
    let spare = record::spare_in(part);
    judge_lines(judge, tally, lines, spare)
}

// ---- a recording

// Judges whole records up to the first breach: one by one rule after rule, then as many as go quickly, and again.
fn judge_records(bytes: &[u8], judge: Judge, tally: Tally) -> Progress
    requires { SoundJudge judge × (SoundTally tally × (tally.records + length bytes.now / 16 ≤ 2 ^ 30)) }
    ensures { result ≡ run_of (starting judge tally) (records_in (length bytes.now / 16) bytes.now) }
{
    let n = bytes.len() / 16;
    let mut state = judge;
    let mut totals = tally;
    let mut i: usize = 0;
    // Stays: the step is as many records as the quick way judged, so that no range gives the places.
    while i < n {
        let at = i * 16;
        let one = judge_one(state, totals, &bytes[at..]);
        if one.rule != 0 {
            return one;
        }
        let run = quick::quick_run(&bytes[at + 16..], one.judge, one.tally);
        state = run.judge;
        totals = run.tally;
        i = i + 1 + run.done;
    }
    Progress {
        rule: 0,
        kind: 0,
        span: 0,
        judge: state,
        tally: totals,
    }
}

// ---- a call

// Whether a call with so many bytes is refused, in document 01's order: 5, 8, 1.
// Stays: the bytes' size beside judge and tally, since document 01's refusals (`refusal_of`) go by these three.
#[tactic(auto, unfolding(rules::specs::Verdict::refusal_of))]
fn refusal(size: usize, judge: Judge, tally: Tally) -> Result<(), Refusal>
    ensures { call_number result ≡ refusal_of size judge tally }
{
    let bounded = bounds::judge_in_bounds(judge) & bounds::tally_in_bounds(tally);
    let room = tally.records as u64 + (size / 16) as u64 <= Judge::MOST_RECORDS as u64;
    let whole = size % 16 == 0;
    if !bounded {
        return Err(Refusal::Bounds);
    }
    if !room {
        return Err(Refusal::TooMany);
    }
    if !whole {
        return Err(Refusal::Length);
    }
    Ok(())
}

// "A breach names its rule and the tally's records", its kind and the span.
#[tactic(auto, unfolding(rules::specs::Verdict::verdict_of))]
fn verdict_of(end: Progress) -> Verdict
    ensures { result ≡ verdict_of end }
{
    if end.rule == 0 {
        return Verdict::Conforming;
    }
    Verdict::Breach(Broken {
        rule: end.rule,
        kind: end.kind,
        place: end.tally.records,
        span: end.span,
    })
}

// Judges a recording, or its next part, from a state and a tally. Nothing changes on a refusal, and a breach leaves both as they were
// before it. Of a caller who began with a fresh judge and zero totals and was told of each part so far that it conforms (`After`), the
// verdict and the totals are those of the whole recording (`Told`).
pub fn judge_all(bytes: &[u8], judge: Judge, tally: Tally) -> Outcome
    ensures { (result ≡ outcome_of bytes.now judge tally) × ((limit : ℕ) (past : List ℕ) → After limit past judge tally → Told limit past bytes.now judge tally result) }
{
    match refusal(bytes.len(), judge, tally) {
        Err(refusal) => Outcome {
            verdict: rules::refused_by(refusal.number()),
            judge,
            tally,
        },
        Ok(()) => {
            let end = judge_records(bytes, judge, tally);
            Outcome {
                verdict: verdict_of(end),
                judge: end.judge,
                tally: end.tally,
            }
        }
    }
}

// One record judged, by value: the recording of these sixteen bytes, which can't be torn.
pub fn judge_record(sixteen: [u8; 16], judge: Judge, tally: Tally) -> Outcome
    ensures { (result ≡ outcome_of sixteen judge tally) × ((limit : ℕ) (past : List ℕ) → After limit past judge tally → Told limit past sixteen judge tally result) }
{
    judge_all(&sixteen, judge, tally)
}

// The same with the tally that the caller lends: the by-value update, applied.
pub fn judge_recording(bytes: &[u8], judge: Judge, tally: &mut Tally) -> Judged
    ensures { (result ≡ judged_of (outcome_of bytes.now judge tally.old)) × ((tally.new ≡ (outcome_of bytes.now judge tally.old).tally) × ((limit : ℕ) (past : List ℕ) → After limit past judge tally.old → Told limit past bytes.now judge tally.old (record { verdict = result.verdict; judge = result.judge; tally = tally.new }))) }
{
    let end = judge_all(bytes, judge, *tally);
    *tally = end.tally;
    Judged {
        verdict: end.verdict,
        judge: end.judge,
    }
}
