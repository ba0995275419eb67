// Boot phases (document 02, wish 1): a recording that is fed in pieces of any length is judged, and in it marks are looked for, one after the other.
// Types and meaning stand in the crate `marks`.
//
// A piece is gone through in parts. Each ends with the next record that matters to the search, so that most records are judged many at a time, and
// the span at a mark's START is the tally's own.
#![tactic(auto)]

mod bounds;
mod look;

ghost use Rattle.std.specs.Prelude.{◌≡◌, true, List, [], ℕ, ◌-◌, ◌≤◌, ◌<◌, length, take, drop, set};
ghost use Rattle.basics.specs.Answers.{answered};
ghost use Rattle.record.specs.Packing.{lines_of};
ghost use Rattle.rules.specs.Exact.{joined};
ghost use Rattle.feeding.specs.State.{stream_bounds, feed_of};
ghost use Rattle.marks.specs.declared.Marks.{Marks};
ghost use Rattle.marks.specs.Report.{diffs_of, Right};
ghost use Rattle.marks.specs.State.{all_found, under_way, phases_bounds, rises_to, saw_of, no_phases, begin_refusal, begun_of, fresh_phases, fed_phases, phased_of, lacking, report_of};
ghost use Rattle.marks.specs.Pieces.{fed_all};
ghost use Rattle.phases.specs.Parts.{Fit, Dull};

use basics::Refusal;
use feeding::Stream;
use marks::{Marks, Phases, Report, Search, Why};
use record::Record;
use rules::Verdict;

fn all_found(phases: Phases) -> bool
    ensures { result ≡ all_found phases }
{
    phases.marks.count <= phases.search.found
}

// Whether more of the input counts: nothing has ended the judging, and a mark is missing still.
#[tactic(auto, unfolding(marks::specs::State::under_way))]
pub fn is_under_way(phases: Phases) -> bool
    ensures { result ≡ under_way phases }
{
    stream::is_going(phases.stream.stop) & !all_found(phases)
}

// ---- going on

// The judge's state after more bytes, which it takes since it is within its bounds.
fn fed(stream: Stream, bytes: &[u8]) -> Stream
    requires { stream_bounds stream ≡ true }
    ensures { result ≡ feed_of stream bytes.now }
{
    stream::feed(stream, bytes).unwrap()
}

// The search sees a record that has been judged, unless it broke a rule or was one too many.
#[tactic(auto, unfolding(marks::specs::State::saw_of))]
fn saw(phases: Phases, next: Stream, lines: Record) -> Phases
    requires { phases.search.found < 32 }
    ensures { result ≡ saw_of phases next lines }
{
    if stream::is_going(next.stop) {
        let mark = look::mark_at(phases.marks, phases.search.found);
        let search = look::seen(mark, phases.search, lines, next.tally.span);
        return Phases {
            stream: next,
            search,
            ..phases
        };
    }
    Phases {
        stream: next,
        ..phases
    }
}

// A record that lacks its last byte, with it.
fn completed(torn: [u8; 16], last: u8) -> Record
    ensures { result ≡ lines_of (set torn 15 last) }
{
    let mut whole = torn;
    whole[15] = last;
    record::lines_in(&whole)
}

// Stays: `Fit` in the clauses of three functions, since a caller makes a `Phases` of any values, and `feed` refuses those out of bounds by 5.

// The record of which the first bytes were held is completed by the piece: with one byte to come the state holds all others.
fn first_record(phases: Phases, piece: &[u8]) -> Phases
    requires { Fit phases × ((under_way phases ≡ true) × (16 - phases.stream.held ≤ length piece.now)) }
    ensures { result ≡ fed_phases phases (take (16 - phases.stream.held) piece.now) }
{
    let last = 15 - phases.stream.held;
    let end = last + 1;
    let waits = fed(phases.stream, &piece[..last]);
    let lines = completed(waits.torn, piece[last]);
    let next = fed(waits, &piece[last..end]);
    saw(phases, next, lines)
}

// Goes on with a part behind whole records, of which the search need see the last record alone.
fn advance(phases: Phases, part: &[u8]) -> Phases
    requires { Fit phases × ((under_way phases ≡ true) × ((phases.stream.held ≡ 0) × Dull phases part.now)) }
    ensures { result ≡ fed_phases phases part.now }
{
    let next = fed(phases.stream, part);
    if (part.len() % 16 == 0) & (16 <= part.len()) {
        let at = part.len() - 16;
        return saw(phases, next, record::lines_in(&part[at..]));
    }
    Phases {
        stream: next,
        ..phases
    }
}

// Goes through the piece from a place on, part by part.
fn go_through(phases: Phases, piece: &[u8], from: usize) -> Phases
    requires { Fit phases × ((fed_phases phases [] ≡ phases) × ((under_way phases ≡ true → phases.stream.held ≡ 0) × (from ≤ length piece.now))) }
    ensures { result ≡ fed_phases phases (drop from piece.now) }
{
    let mut state = phases;
    let mut at = from;
    // Stays: a `while`, since a turn goes on by as many bytes as `reach` says.
    while at < piece.len() {
        if !is_under_way(state) {
            break;
        }
        let search = state.search;
        let mark = look::mark_at(state.marks, search.found);
        let waits = search.pending.is_some();
        let size = look::reach(mark, waits, &piece[at..]);
        let end = at + size;
        state = advance(state, &piece[at..end]);
        at = end;
    }
    state
}

// The state after a piece.
fn take_in(phases: Phases, piece: &[u8]) -> Phases
    requires { phases_bounds phases ≡ true }
    ensures { result ≡ fed_phases phases piece.now }
{
    if !is_under_way(phases) {
        return phases;
    }
    // What a torn record lacks, all of a record where none is held.
    let lacking = 16 - phases.stream.held;
    if piece.len() < lacking {
        let next = fed(phases.stream, piece);
        return Phases {
            stream: next,
            ..phases
        };
    }
    let first = first_record(phases, piece);
    go_through(first, piece, lacking)
}

// ---- the calls

// An input from the start, for a hold limit of 1 to 16 and 1 to 32 marks, each a slot and a number of 0 to 15: or refusals 9, 2, 3, in that order.
pub fn fresh(limit: u8, marks: Marks) -> Result<Phases, Refusal>
    ensures { answered no_phases result ≡ begun_of limit marks }
{
    if !bounds::some_marks(marks) {
        return Err(Refusal::Marks);
    }
    if !bounds::all_named(marks) {
        return Err(Refusal::Place);
    }
    let stream = stream::fresh(limit)?;
    Ok(Phases {
        stream,
        marks,
        search: Search::default(),
    })
}

// Goes on with the input's next piece, of any length, or refuses a state out of bounds by 5: the caller has it as it was.
#[tactic(auto, unfolding(marks::specs::State::phased_of))]
pub fn feed(phases: Phases, piece: &[u8]) -> Result<Phases, Refusal>
    ensures { answered phases result ≡ phased_of phases piece.now }
{
    if !bounds::in_bounds(phases) {
        return Err(Refusal::Bounds);
    }
    Ok(take_in(phases, piece))
}

// ---- the report

// Why the report ends, from the judge's verdict on what was fed: a conforming end lacks the mark that is looked for.
fn why_lacking(place: usize, verdict: Verdict) -> Why
    ensures { result ≡ lacking place verdict }
{
    match verdict {
        Verdict::Conforming => Why::Absent(place),
        Verdict::Breach(broken) => Why::AtBreach(broken),
        Verdict::OutOfBounds => Why::OutOfBounds,
        Verdict::TooMany => Why::TooMany,
        Verdict::Torn => Why::Torn,
    }
}

// The difference of each of the first spans to the one before.
// Stays: an index: `windows(2)` beside `diffs[1..].iter_mut()` is no plainer, and an invariant has no name there for what stands written.
fn differences(spans: [u64; 32], found: usize) -> [u64; 32]
    requires { (found ≤ 32) × (rises_to spans found ≡ true) }
    ensures { result ≡ diffs_of spans found }
{
    let mut diffs = [0; 32];
    for i in 1..found {
        diffs[i] = spans[i] - spans[i - 1];
    }
    diffs
}

// The report, if the input ends here. Of a caller who began with `fresh` and fed pieces, it is the one that is right of the recording of all their bytes.
pub fn finish(phases: Phases) -> Report
    ensures { (result ≡ report_of phases) × ((limit : ℕ) (m : Marks) (pieces : List (List ℕ)) → begin_refusal limit m ≡ 0 → phases ≡ fed_all (fresh_phases limit m) pieces → Right limit m (joined pieces) result) }
{
    if !bounds::in_bounds(phases) {
        return Report {
            why: Why::OutOfBounds,
            found: 0,
            spans: [0; 32],
            diffs: [0; 32],
            records: 0,
        };
    }
    let spans = phases.search.spans;
    let found = phases.search.found;
    let ending = stream::finish(phases.stream);
    let complete = all_found(phases);
    let why = if complete {
        Why::Complete
    } else {
        why_lacking(found, ending.verdict)
    };
    let diffs = differences(spans, found);
    Report {
        why,
        found,
        spans,
        diffs,
        records: ending.tally.records,
    }
}
