// Boot phases (document 02, wish 1): the marks that a caller names, how far a recording that is fed in pieces has come with them, and the report: the
// types, and what they mean. The code that feeds and reports stands in the crate `phases`.
#![tactic(auto)]

use feeding::Stream;
use rules::Broken;

// A slot and an interrupt number.
#[derive(Clone, Copy, Default)]
pub struct Mark {
    pub slot: u8,
    pub number: u8,
}

// The marks that are looked for, in order: the first `count` of the array. A caller may name more than 32, which is refused, so `count` says how many
// were named.
// Stays: `count` beside an array of 32, for refusal 9 of more marks than there is room for (`some_marks`), and no heap is used.
#[derive(Clone, Copy, Default)]
pub struct Marks {
    pub marks: [Mark; 32],
    pub count: usize,
}

// How far the marks are found: the spans at the first `found` of them, and the write to the next one whose ACK is waited for, if there is one: the span
// at its START.
// Stays: `found` beside an array of 32, since no heap is used, and refusal 5 tells a state that has found more than there are (`phases_bounds`).
#[derive(Clone, Copy, Default)]
pub struct Search {
    pub spans: [u64; 32],
    pub found: usize,
    pub pending: Option<u64>,
}

// The input so far: as the judge has it, and as the search for the marks has it.
#[derive(Clone, Copy)]
pub struct Phases {
    pub stream: Stream,
    pub marks: Marks,
    pub search: Search,
}

// Why a report ends where it does: at the last mark's ACK, at a breach, at a torn record, at a whole record past 2^30, or at the input's end
// with the mark at this place absent. A state out of bounds has no report.
#[derive(Clone, Copy)]
pub enum Why {
    Complete,
    AtBreach(Broken),
    Torn,
    TooMany,
    Absent(usize),
    OutOfBounds,
}

// The span at each of the first `found` marks, its difference to the one before (0 for the first), and the records read.
// Stays: the spans and the differences as two arrays, since `Right`, `Phasing.whole` and `Phasing.sums` speak of the spans alone, as a list.
#[derive(Clone, Copy)]
pub struct Report {
    pub why: Why,
    pub found: usize,
    pub spans: [u64; 32],
    pub diffs: [u64; 32],
    pub records: u32,
}
