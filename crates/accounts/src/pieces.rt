// An input that is fed in pieces of any length, with its account (document 02, wish 3): the judge is fed as without one, and the records that it has then
// passed are charged, as they lie in the piece; only a torn record, which a piece completes, is put together first.
ghost use Rattle.std.specs.Prelude.{◌≡◌, ℕ, ◌<◌, true, List, ◌++◌};
ghost use Rattle.basics.specs.Answers.{answered};
ghost use Rattle.basics.specs.Numbers.{lawful_limit};
ghost use Rattle.rules.specs.Exact.{joined};
ghost use Rattle.rules.specs.Run.{records_in};
ghost use Rattle.feeding.specs.State.{torn_of};
ghost use Rattle.usage.specs.Charge.{none_used, account_of};
ghost use Rattle.usage.specs.Pieces.{ledger_bounds, fresh_ledger, no_ledger, begun_of, post_of, posted_of, closing_of, Accounts, posted_all};
ghost use Rattle.accounts.specs.Watch.{Chargeable};

use crate::{charge, entries_in_bounds};
use basics::Refusal;
use entries::Entry;
use feeding::{Ending, Stream};
use rules::{Tally, Verdict};
use usage::{Closing, Ledger};

// An account of nothing.
fn none_used() -> [Entry; 16]
    ensures { result ≡ none_used }
{
    [Entry::zero(); 16]
}

// Stays: a ledger and a piece go as two values, here and below, since `post_of` and `posted_of` take them so: the piece is the caller's bytes, and is not kept.
// Charges the first n records of a torn record's first `held` bytes and the piece behind them: the torn one, which the piece completes, and then those
// of the piece as they lie.
fn charge_across(ledger: Ledger, piece: &[u8], n: usize) -> [Entry; 16]
    requires { (ledger.stream.held < 16) × Chargeable (torn_of ledger.stream ++ piece.now) n ledger.stream.judge ledger.entries }
    ensures { result ≡ account_of ledger.stream.judge ledger.entries (records_in n (torn_of ledger.stream ++ piece.now)) }
{
    if n == 0 {
        return ledger.entries;
    }
    let Stream {
        judge,
        torn,
        held,
        ..
    } = ledger.stream;
    let lacking = 16 - held;
    let front = stream::filled(torn, held, &piece[..lacking]);
    let watch = charge::watch_before(judge, &front);
    let first = charge::charge_on(&front, 1, watch, ledger.entries);
    charge::charge_on(&piece[lacking..], n - 1, first.watch, first.entries).entries
}

// The state after a piece.
fn take_in(ledger: Ledger, piece: &[u8]) -> Ledger
    requires { ledger_bounds ledger ≡ true }
    ensures { result ≡ post_of ledger piece.now }
{
    let before = ledger.stream;
    let next = stream::feed(before, piece).unwrap_or(before);
    let passed = (next.tally.records - before.tally.records) as usize;
    if before.held == 0 {
        let entries = charge::count_records(piece, passed, before.judge, ledger.entries);
        return Ledger {
            stream: next,
            entries,
        };
    }
    let entries = charge_across(ledger, piece, passed);
    Ledger {
        stream: next,
        entries,
    }
}

// ---- the calls

// The bounds for refusal 5: those of the judge that is fed, and of each entry.
#[tactic(auto, unfolding(usage::specs::Pieces::ledger_bounds))]
fn in_bounds(ledger: Ledger) -> bool
    ensures { result ≡ ledger_bounds ledger }
{
    stream::in_bounds(ledger.stream) && entries_in_bounds(ledger.stream.tally, ledger.entries)
}

// An input from the start, for a hold limit of 1 to 16, or refusal 3.
#[tactic(auto, unfolding(usage::specs::Pieces::begun_of, usage::specs::Pieces::fresh_ledger, usage::specs::Pieces::no_ledger, feeding::specs::State::fresh_of))]
pub fn fresh(limit: u8) -> Result<Ledger, Refusal>
    ensures { answered no_ledger result ≡ begun_of limit }
{
    let stream = stream::fresh(limit)?;
    Ok(Ledger {
        stream,
        entries: none_used(),
    })
}

// Stays: it reads like `stream::feed`, but its promise is its own (`posted_of`), and a trait with laws over both is no plainer than four lines.
// Goes on with the input's next piece, of any length, or refuses a state out of bounds by 5.
#[tactic(auto, unfolding(usage::specs::Pieces::posted_of))]
pub fn feed(ledger: Ledger, piece: &[u8]) -> Result<Ledger, Refusal>
    ensures { answered ledger result ≡ posted_of ledger piece.now }
{
    if !in_bounds(ledger) {
        return Err(Refusal::Bounds);
    }
    Ok(take_in(ledger, piece))
}

// What the input comes to, if it ends here, with its account. Of a caller who began with `fresh` and fed pieces, it is what the recording of all their
// bytes has.
pub fn finish(ledger: Ledger) -> Closing
    ensures { (result ≡ closing_of ledger) × ((limit : ℕ) (pieces : List (List ℕ)) → lawful_limit limit ≡ true → ledger ≡ posted_all (fresh_ledger limit) pieces → Accounts limit (joined pieces) result) }
{
    if !in_bounds(ledger) {
        let ending = Ending {
            verdict: Verdict::OutOfBounds,
            tally: Tally::zero(),
            opened: false,
        };
        return Closing {
            ending,
            entries: none_used(),
        };
    }
    let ending = stream::finish(ledger.stream);
    let entries = ledger.entries;
    Closing { ending, entries }
}
