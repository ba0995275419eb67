// A recording that is fed to the judge in pieces of any length (document 01, "The judge" and the judging program of "Checked examples"): the types, and
// what they mean. The code that feeds stands in the crate `stream`.
#![tactic(auto)]

use rules::{Broken, Judge, Tally, Verdict};

// Stays: `goes`, `stop_of` and `last_verdict` (feeding/specs/State) go by these three cases of document 01, and an Option or a Result has two.
// What has ended the judging before the input's end, if anything has: a breach, or a whole record past 2^30.
#[derive(Clone, Copy)]
pub enum Stop {
    Going,
    AtBreach(Broken),
    PastMost,
}

// Stays: no heap, fixed memory; `padded` and `torn_of` (feeding/specs/State) say what `torn` and `held` hold.
// The input so far: what its whole records came to, and the first `held` bytes of `torn`, which are those of a torn record.
#[derive(Clone, Copy)]
pub struct Stream {
    pub judge: Judge,
    pub tally: Tally,
    pub stop: Stop,
    pub torn: [u8; 16],
    pub held: usize,
}

// Stays: `opened` is an answer of its own, which document 01's judging program prints; no other field hangs on it.
// What an input comes to: the verdict, the totals, and whether a transfer is open.
#[derive(Clone, Copy)]
pub struct Ending {
    pub verdict: Verdict,
    pub tally: Tally,
    pub opened: bool,
}
