// A judge that is fed a recording in pieces of any length and keeps the record that broke a rule: so that it can say at the end what that record had
// and what would have conformed. The judge is fed as without a witness; its state stays as it was before the breach.
#![tactic(auto)]

ghost use Rattle.std.specs.Prelude.{◌≡◌, true, ◌++◌, ◌<◌, get_or};
ghost use Rattle.rules.specs.Recording.{sixteen};
ghost use Rattle.basics.specs.Answers.{answered};
ghost use Rattle.feeding.specs.State.{padded, torn_of, stream_bounds};
ghost use Rattle.witness.specs.State.{broken_figures, figures_by, caught_in, no_witness, note_of, begun_of, noted_of, reason_in};

use basics::Refusal;
use feeding::{Ending, Stop, Stream};
use rules::{Broken, Judge, Rule, Verdict};
use why::Figures;

// The input so far, and the sixteen bytes of the record that broke a rule, zeros where none did.
#[derive(Clone, Copy)]
pub struct Witness {
    pub stream: Stream,
    pub bytes: [u8; 16],
}

// What an input comes to, and the figures of its breach, both 0 where there is none.
#[derive(Clone, Copy)]
pub struct Reason {
    pub ending: Ending,
    pub figures: Figures,
}

// ---- the record that broke a rule

// A byte of the torn record's bytes that a state holds and the piece behind them, 0 where there is none.
// Stays: `held < 16` and (before, piece) in three clauses: they are `feed`'s own arguments, and a caller may make a `Stream` of any values, refused by 5.
fn byte_at(before: Stream, piece: &[u8], at: usize) -> u8
    requires { before.held < 16 }
    ensures { result ≡ get_or (torn_of before ++ piece.now) at 0 }
{
    if at < before.held {
        return before.torn[at];
    }
    let behind = at - before.held;
    if behind < piece.len() {
        return piece[behind];
    }
    0
}

// The sixteen bytes at a place of them.
fn sixteen_at(before: Stream, piece: &[u8], place: u32) -> [u8; 16]
    requires { before.held < 16 }
    ensures { result ≡ padded (sixteen (torn_of before ++ piece.now) place) }
{
    let mut next = [0u8; 16];
    for (i, byte) in next.iter_mut().enumerate() {
        *byte = byte_at(before, piece, place as usize * 16 + i);
    }
    next
}

// The record that broke a rule, the state before these bytes being this.
fn caught(stop: Stop, before: Stream, piece: &[u8]) -> [u8; 16]
    requires { before.held < 16 }
    ensures { result ≡ caught_in stop before.tally.records (torn_of before ++ piece.now) }
{
    match stop {
        Stop::AtBreach(broken) => {
            let place = broken.place.saturating_sub(before.tally.records);
            sixteen_at(before, piece, place)
        }
        _ => [0u8; 16],
    }
}

// ---- its figures

// The figures of a breach by the record of these sixteen bytes, the judge's state before it being this.
fn broken_figures(broken: Broken, judge: Judge, bytes: [u8; 16]) -> Figures
    ensures { result ≡ broken_figures broken judge bytes }
{
    let lines = record::lines_in(&bytes);
    let spare = record::spare_in(&bytes);
    let d = breach::difference(judge, lines.stamp);
    let rule = Rule {
        number: broken.rule,
        kind: broken.kind,
    };
    why::figures_of(rule, judge, lines, spare, d)
}

// Both 0 where no rule is broken.
fn figures_by(verdict: Verdict, judge: Judge, bytes: [u8; 16]) -> Figures
    ensures { result ≡ figures_by verdict judge bytes }
{
    match verdict {
        Verdict::Breach(broken) => broken_figures(broken, judge, bytes),
        _ => Figures::default(),
    }
}

// ---- the calls

// The state after a piece. Once the judging has ended, nothing changes any more.
fn take_in(witness: Witness, piece: &[u8]) -> Witness
    requires { stream_bounds witness.stream ≡ true }
    ensures { result ≡ note_of witness piece.now }
{
    let before = witness.stream;
    if !stream::is_going(before.stop) {
        return witness;
    }
    let next = stream::feed(before, piece).unwrap_or(before);
    let bytes = caught(next.stop, before, piece);
    Witness {
        stream: next,
        bytes,
    }
}

// An input from the start, for a hold limit of 1 to 16, or refusal 3.
#[tactic(auto, unfolding(crate::specs::State::begun_of, crate::specs::State::no_witness, feeding::specs::State::fresh_of))]
pub fn fresh(limit: u8) -> Result<Witness, Refusal>
    ensures { answered no_witness result ≡ begun_of limit }
{
    let stream = stream::fresh(limit)?;
    Ok(Witness {
        stream,
        bytes: [0u8; 16],
    })
}

// Goes on with the input's next piece, of any length, or refuses a state out of bounds by 5.
#[tactic(auto, unfolding(crate::specs::State::noted_of))]
pub fn feed(witness: Witness, piece: &[u8]) -> Result<Witness, Refusal>
    ensures { answered witness result ≡ noted_of witness piece.now }
{
    if !stream::in_bounds(witness.stream) {
        return Err(Refusal::Bounds);
    }
    Ok(take_in(witness, piece))
}

// What the input comes to, if it ends here, and the figures of its breach.
pub fn finish(witness: Witness) -> Reason
    ensures { result ≡ reason_in witness }
{
    let ending = stream::finish(witness.stream);
    let figures = figures_by(ending.verdict, witness.stream.judge, witness.bytes);
    Reason { ending, figures }
}
