// Who used the bus (document 02, wish 3): the types of what is answered of an account, and what they mean. The code stands in the crate `accounts`.
#![tactic(auto)]

use entries::Entry;
use feeding::{Ending, Stream};
use rules::{Judge, Tally, Verdict};

// What a call that judges with an account leaves, all by value.
#[derive(Clone, Copy)]
pub struct Accounted {
    pub verdict: Verdict,
    pub judge: Judge,
    pub tally: Tally,
    pub entries: [Entry; 16],
}

// An input that is fed in pieces, with its account so far.
#[derive(Clone, Copy)]
pub struct Ledger {
    pub stream: Stream,
    pub entries: [Entry; 16],
}

// What an input comes to, and its account.
#[derive(Clone, Copy)]
pub struct Closing {
    pub ending: Ending,
    pub entries: [Entry; 16],
}
