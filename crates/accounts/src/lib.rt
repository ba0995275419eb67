// Who used the bus (document 02, wish 3): the judge with an account of each slot. Types and meaning stand in the crates `usage` and `entries`.
//
// The judge stays as it is. It judges a part first, and then the records that it has passed are charged in a second pass (`charge`).
#![tactic(auto)]

mod charge;
mod pieces;

ghost use Rattle.std.specs.Prelude.{◌≡◌, ℕ, List};
ghost use Rattle.basics.specs.Answers.{answered, call_number};
ghost use Rattle.entries.specs.Entries.{zero_entry};
ghost use Rattle.usage.specs.Calls.{entry_bounds, entries_bounds, refusal_for, accounted_of, judges_answer, own_entry, share_of};
ghost use Rattle.usage.specs.Told.{AfterUse, ToldUse};
ghost use Rattle.accounts.specs.ByValue.{accounted_for, share_for};

use basics::Refusal;
use entries::Entry;
pub use pieces::{feed, finish, fresh};
use rules::{Judge, Judged, Tally};
use usage::Accounted;

// Stays: judge, tally, entries and how many were lent go as values of their own, since `accounted_for`, `share_for` and `refusal_for` take them so, as
// document 02's calls do, and `share` has no judge.
// ---- bounds

// At most the tally's STARTs, and at most as many busy cycles as its span and the entry's STARTs together, which may not fit as a sum.
#[tactic(auto, using(crate::proofs::Calls::shifted))]
fn entry_in_bounds(tally: Tally, entry: Entry) -> bool
    ensures { result ≡ entry_bounds tally entry }
{
    entry.starts <= tally.starts && entry.busy.saturating_sub(tally.span) <= entry.starts as u64
}

fn entries_in_bounds(tally: Tally, entries: [Entry; 16]) -> bool
    ensures { result ≡ entries_bounds tally entries }
{
    entries.iter().all(|entry| entry_in_bounds(tally, *entry))
}

// ---- judging with an account

// Whether a call with so many bytes and an account of `lent` entries is accepted, in document 01's order of refusals: 5, 8, 1.
#[tactic(auto, unfolding(usage::specs::Calls::refusal_for))]
fn refusal(
    size: usize,
    judge: Judge,
    tally: Tally,
    entries: [Entry; 16],
    lent: usize,
) -> Result<(), Refusal>
    ensures { call_number result ≡ refusal_for size judge tally entries lent }
{
    let bounded = judge::judge_in_bounds(judge)
        & judge::tally_in_bounds(tally)
        & entries_in_bounds(tally, entries);
    if !bounded {
        return Err(Refusal::Bounds);
    }
    let room = tally.records as u64 + (size / 16) as u64 <= Judge::MOST_RECORDS as u64;
    if !room {
        return Err(Refusal::TooMany);
    }
    let whole = (size % 16 == 0) & (lent == 16);
    if !whole {
        return Err(Refusal::Length);
    }
    Ok(())
}

// Judges a recording, or its next part, with the sixteen entries of an account that has `lent` of its own.
fn judge_for(
    bytes: &[u8],
    judge: Judge,
    tally: Tally,
    entries: [Entry; 16],
    lent: usize,
) -> Accounted
    ensures { result ≡ accounted_for bytes.now judge tally entries lent }
{
    if let Err(refused) = refusal(bytes.len(), judge, tally, entries, lent) {
        return Accounted {
            verdict: rules::refused_by(refused.number()),
            judge,
            tally,
            entries,
        };
    }
    let end = judge::judge_all(bytes, judge, tally);
    let passed = (end.tally.records - tally.records) as usize;
    let account = charge::count_records(bytes, passed, judge, entries);
    Accounted {
        verdict: end.verdict,
        judge: end.judge,
        tally: end.tally,
        entries: account,
    }
}

// Judges a recording, or its next part, from a state, a tally and an account. Nothing changes on a refusal, and "a breach changes no entry". Of a caller who
// began with a fresh judge, zero totals and an account of nothing, and was told of each part so far that it conforms (`AfterUse`), the verdict, the totals
// and the account are those of the whole recording (`ToldUse`).
pub fn judge_account(bytes: &[u8], judge: Judge, tally: Tally, entries: [Entry; 16]) -> Accounted
    ensures { (result ≡ accounted_of bytes.now judge tally entries) × ((limit : ℕ) (past : List ℕ) → AfterUse limit past judge tally entries → ToldUse limit past bytes.now judge tally entries result) }
{
    judge_for(bytes, judge, tally, entries, 16)
}

// The same with the tally and the account that the caller lends. An account that is not of sixteen entries is refused by 1.
pub fn judge_accounts(
    bytes: &[u8],
    judge: Judge,
    tally: &mut Tally,
    account: &mut [Entry],
) -> Judged
    ensures { (result ≡ judges_answer (accounted_of bytes.now judge tally.old account.old)) × ((tally.new ≡ (accounted_of bytes.now judge tally.old account.old).tally) × ((account.new ≡ (accounted_of bytes.now judge tally.old account.old).entries) × ((limit : ℕ) (past : List ℕ) → AfterUse limit past judge tally.old account.old → ToldUse limit past bytes.now judge tally.old account.old (record { verdict = result.verdict; judge = result.judge; tally = tally.new; entries = account.new })))) }
{
    let entries = entries::gather(account);
    let end = judge_for(bytes, judge, *tally, entries, account.len());
    entries::spread(account, end.entries);
    *tally = end.tally;
    Judged {
        verdict: end.verdict,
        judge: end.judge,
    }
}

// ---- one slot's entry

// The entry of the slot itself: "an accepted answer for one slot depends on its entry alone". It is nothing where there is no such slot.
fn own_entry(slot: u8, entries: [Entry; 16]) -> Entry
    ensures { result ≡ own_entry slot entries }
{
    if slot <= 15 {
        return entries[slot as usize];
    }
    Entry::zero()
}

// One slot's entry of sixteen, for an account that has `lent` entries of its own.
#[tactic(auto, unfolding(crate::specs::ByValue::share_for, usage::specs::Calls::share_refusal))]
fn share_in(slot: u8, tally: Tally, entries: [Entry; 16], lent: usize) -> Result<Entry, Refusal>
    ensures { answered zero_entry result ≡ share_for slot tally entries lent }
{
    let own = own_entry(slot, entries);
    let bounded = judge::tally_in_bounds(tally) & entry_in_bounds(tally, own);
    if !bounded {
        return Err(Refusal::Bounds);
    }
    if lent != 16 {
        return Err(Refusal::Length);
    }
    let named = slot <= 15;
    if !named {
        return Err(Refusal::Place);
    }
    Ok(own)
}

// What one slot has used, of the tally and the account that the caller lends: its entry, or refusals 5, 1 and 2, in that order.
pub fn share(slot: u8, tally: Tally, account: &[Entry]) -> Result<Entry, Refusal>
    ensures { answered zero_entry result ≡ share_of slot tally account.now }
{
    share_in(slot, tally, entries::gather(account), account.len())
}
