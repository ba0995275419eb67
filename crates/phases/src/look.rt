// What the search for marks makes of a record (document 02, wish 1), and which records it need look at.
ghost use Rattle.std.specs.Prelude.{◌≡◌, ◌<◌};
ghost use Rattle.codes.specs.Start.{decoded_answer};
ghost use Rattle.marks.specs.Marks.{mark_at, writes_to, is_start_of};
ghost use Rattle.marks.specs.State.{waiting, acked, seen_of};
ghost use Rattle.phases.specs.Parts.{matters, Reaches};

use basics::Refusal;
use codes::{Code, Meaning, Unit};
use marks::{Mark, Marks, Search};
use record::Record;

// ---- a mark's START

pub(crate) fn mark_at(marks: Marks, i: usize) -> Mark
    requires { i < 32 }
    ensures { result ≡ mark_at marks i }
{
    marks.marks[i]
}

// Whether a START's code is a word write to the mark: F, slot, 0 in the address's top twelve bits, the number in AD5 to AD2.
fn writes_to(mark: Mark, decoded: Result<Meaning, Refusal>) -> bool
    ensures { result ≡ writes_to mark (decoded_answer decoded) }
{
    match decoded {
        Ok(meaning) => {
            let op = meaning.operation;
            op.write
                & (op.unit == Unit::Word)
                & (op.address / 1048576 == 0xF00 + mark.slot as u32 * 16)
                & (op.address / 4 % 16 == mark.number as u32)
        }
        Err(_) => false,
    }
}

#[tactic(auto, unfolding(marks::specs::Marks::is_start_of))]
fn is_start_of(mark: Mark, lines: Record) -> bool
    ensures { result ≡ is_start_of mark lines }
{
    if lines.start & !lines.ack & !lines.reset {
        let code = Code {
            tm1: lines.tm1,
            tm0: lines.tm0,
            ad: lines.ad,
        };
        return writes_to(mark, codes::decode(code));
    }
    false
}

// ---- the search

// After the ACK of an open transfer: a success counts the write that was waited for.
fn after_ack(search: Search, success: bool) -> Search
    requires { search.found < 32 }
    ensures { result ≡ acked search search.pending success }
{
    match search.pending {
        Some(span) if success => {
            let mut spans = search.spans;
            spans[search.found] = span;
            Search {
                spans,
                found: search.found + 1,
                pending: None,
            }
        }
        _ => Search {
            pending: None,
            ..search
        },
    }
}

// After a record, the span up to it being so many cycles.
#[tactic(auto, unfolding(marks::specs::State::seen_of))]
pub(crate) fn seen(mark: Mark, search: Search, lines: Record, span: u64) -> Search
    requires { search.found < 32 }
    ensures { result ≡ seen_of mark search lines span }
{
    if lines.reset {
        return Search {
            pending: None,
            ..search
        };
    }
    if lines.start {
        if is_start_of(mark, lines) {
            return Search {
                pending: Some(span),
                ..search
            };
        }
        return Search {
            pending: None,
            ..search
        };
    }
    if lines.ack {
        return after_ack(search, lines.tm1 & lines.tm0);
    }
    search
}

// ---- records that matter

// Whether the search has to see a record: where nothing is waited for, only a START of the mark.
#[tactic(auto, unfolding(crate::specs::Parts::matters))]
fn may_change(mark: Mark, waits: bool, lines: Record) -> bool
    ensures { result ≡ matters mark waits lines }
{
    if waits {
        return lines.reset | lines.start | lines.ack;
    }
    is_start_of(mark, lines)
}

// The bytes up to the end of the first record that matters, or all.
pub(crate) fn reach(mark: Mark, waits: bool, part: &[u8]) -> usize
    ensures { Reaches mark waits part.now result }
{
    for i in 0..part.len() / 16 {
        let at = i * 16;
        let end = at + 16;
        let lines = record::lines_in(&part[at..end]);
        if may_change(mark, waits, lines) {
            return end;
        }
    }
    part.len()
}
