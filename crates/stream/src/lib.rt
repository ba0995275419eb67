// A judge that is fed a recording in pieces of any length (document 01, "The judge" and the judging program of "Checked examples"). Whole records are
// judged as they lie in the piece; the bytes of a torn one wait in the state for the next piece.
#![tactic(auto)]

ghost use Rattle.std.specs.Prelude.{◌≡◌, true, List, ◌++◌, ℕ, ◌+◌, ◌-◌, ◌^◌, ◌≤◌, ◌<◌, length, take, []};
ghost use Rattle.rules.specs.Bounds.{SoundJudge, SoundTally};
ghost use Rattle.rules.specs.Exact.{joined};
ghost use Rattle.rules.specs.State.{zero_tally};
ghost use Rattle.basics.specs.Answers.{answered};
ghost use Rattle.basics.specs.Numbers.{lawful_limit};
ghost use Rattle.feeding.specs.declared.Stop.TheVariants.{Going};
ghost use Rattle.feeding.specs.Input.{Answers};
ghost use Rattle.feeding.specs.State.{goes, torn_of, stream_bounds, stop_of, state_with, gone_on, fresh_stream, no_stream, fresh_of, feed_of, fed_of, last_verdict, finish_of};
ghost use Rattle.feeding.specs.Pieces.{fed_all};
ghost use Rattle.stream.specs.Parts.{filled_of};

use basics::Refusal;
use feeding::{Ending, Stop, Stream};
use rules::{Judge, Tally, Verdict};

// Whether nothing has ended the judging yet, so that more of the input counts.
pub fn is_going(stop: Stop) -> bool
    ensures { result ≡ goes stop }
{
    matches!(stop, Stop::Going)
}

// The array with the bytes of `part` in it, from its place `at` on, or as it is where they have no room there.
#[tactic(auto, unfolding(crate::specs::Parts::filled_of))]
pub fn filled(array: [u8; 16], at: usize, part: &[u8]) -> [u8; 16]
    ensures { result ≡ filled_of array at part.now }
{
    if part.len() > 16 {
        return array;
    }
    if at > 16 - part.len() {
        return array;
    }
    let mut next = array;
    next[at..at + part.len()].copy_from_slice(part);
    next
}

// Stays: a stream (or its judge and tally) and a piece go as two values below, since `gone_on`, `feed_of` and `fed_of` take them so: the piece is the
// caller's bytes, and is not kept.
// ---- going on

// What ends the judging, where the records judged have this verdict and `past` says whether a whole record past 2^30 was given.
fn stop_of(past: bool, verdict: Verdict) -> Stop
    ensures { result ≡ stop_of past verdict }
{
    match verdict {
        Verdict::Breach(broken) => Stop::AtBreach(broken),
        Verdict::Conforming if past => Stop::PastMost,
        _ => Stop::Going,
    }
}

// Goes on with these bytes: the whole records among them are judged as they lie, at most 2^30 in all, and the torn one is kept.
fn go_on(judge: Judge, tally: Tally, bytes: &[u8]) -> Stream
    requires { SoundJudge judge × (SoundTally tally × (tally.records ≤ 2 ^ 30)) }
    ensures { result ≡ gone_on judge tally bytes.now }
{
    let whole = bytes.len() / 16;
    let room = (Judge::MOST_RECORDS - tally.records) as usize;
    let taken = whole.min(room);
    let next = judge::judge_all(&bytes[..taken * 16], judge, tally);
    let past = (Judge::MOST_RECORDS as usize) < tally.records as usize + whole;
    let stop = stop_of(past, next.verdict);
    let behind = basics::pick(is_going(stop), whole * 16, bytes.len());
    let torn = filled([0u8; 16], 0, &bytes[behind..]);
    let held = bytes.len() - behind;
    Stream {
        judge: next.judge,
        tally: next.tally,
        stop,
        torn,
        held,
    }
}

// Goes on with a piece behind the first bytes of a torn record: these are completed first, as far as the piece goes.
fn complete(stream: Stream, piece: &[u8]) -> Stream
    requires { SoundJudge stream.judge × (SoundTally stream.tally × ((stream.tally.records ≤ 2 ^ 30) × (stream.held < 16))) }
    ensures { result ≡ gone_on stream.judge stream.tally (torn_of stream ++ piece.now) }
{
    let n = (16 - stream.held).min(piece.len());
    let front = filled(stream.torn, stream.held, &piece[..n]);
    let size = stream.held + n;
    let first = go_on(stream.judge, stream.tally, &front[..size]);
    if is_going(first.stop) & (n < piece.len()) {
        return go_on(first.judge, first.tally, &piece[n..]);
    }
    first
}

// ---- the calls

// The bounds for refusal 5: those of the judge and of the tally, at most 2^30 records, and fewer than sixteen bytes of a torn record.
#[tactic(auto, unfolding(feeding::specs::State::stream_bounds))]
pub fn in_bounds(stream: Stream) -> bool
    ensures { result ≡ stream_bounds stream }
{
    judge::judge_in_bounds(stream.judge)
        && judge::tally_in_bounds(stream.tally)
        && stream.tally.records <= Judge::MOST_RECORDS
        && stream.held < 16
}

// The state before the first piece.
#[tactic(auto, unfolding(feeding::specs::State::padded))]
fn begun(judge: Judge) -> Stream
    ensures { result ≡ state_with Going judge zero_tally [] }
{
    Stream {
        judge,
        tally: Tally::zero(),
        stop: Stop::Going,
        torn: [0u8; 16],
        held: 0,
    }
}

// The state after a piece. Once the judging has ended, nothing changes any more.
fn take_in(stream: Stream, piece: &[u8]) -> Stream
    requires { stream_bounds stream ≡ true }
    ensures { result ≡ feed_of stream piece.now }
{
    if !is_going(stream.stop) {
        return stream;
    }
    if stream.held == 0 {
        return go_on(stream.judge, stream.tally, piece);
    }
    complete(stream, piece)
}

// The verdict at the end of the input: what has ended the judging, or else a torn record.
fn last_verdict(stop: Stop, held: usize) -> Verdict
    ensures { result ≡ last_verdict stop held }
{
    match stop {
        Stop::Going if held == 0 => Verdict::Conforming,
        Stop::Going => Verdict::Torn,
        Stop::AtBreach(broken) => Verdict::Breach(broken),
        Stop::PastMost => Verdict::TooMany,
    }
}

// An input from the start, for a hold limit of 1 to 16, or refusal 3.
#[tactic(auto, unfolding(feeding::specs::State::fresh_of, feeding::specs::State::fresh_stream, feeding::specs::State::no_stream, rules::specs::Verdict::fresh_of))]
pub fn fresh(limit: u8) -> Result<Stream, Refusal>
    ensures { answered no_stream result ≡ fresh_of limit }
{
    let judge = Judge::fresh(limit)?;
    Ok(begun(judge))
}

// Goes on with the input's next piece, of any length, or refuses a state out of bounds by 5.
#[tactic(auto, unfolding(feeding::specs::State::fed_of))]
pub fn feed(stream: Stream, piece: &[u8]) -> Result<Stream, Refusal>
    ensures { answered stream result ≡ fed_of stream piece.now }
{
    if !in_bounds(stream) {
        return Err(Refusal::Bounds);
    }
    Ok(take_in(stream, piece))
}

// What the input comes to, if it ends here. Of a caller who began with `fresh` and fed pieces, it is what the recording of all their bytes has.
pub fn finish(stream: Stream) -> Ending
    ensures { (result ≡ finish_of stream) × ((limit : ℕ) (pieces : List (List ℕ)) → lawful_limit limit ≡ true → stream ≡ fed_all (fresh_stream limit) pieces → Answers limit (joined pieces) result) }
{
    if !in_bounds(stream) {
        return Ending {
            verdict: Verdict::OutOfBounds,
            tally: Tally::zero(),
            opened: false,
        };
    }
    let verdict = last_verdict(stream.stop, stream.held);
    let opened = rules::is_open(stream.judge.transfer);
    Ending {
        verdict,
        tally: stream.tally,
        opened,
    }
}
