// Calls 23 to 25: a recording's next bytes judged with an account of each slot, one slot's entry, and an entry set raw.
ghost use Rattle.std.specs.Prelude.{◌≡◌, ◌++◌, ◌≤◌, ◌<◌, take, drop};
ghost use Rattle.basics.specs.Answers.{answered};
ghost use Rattle.entries.specs.Entries.{zero_entry};
ghost use Rattle.usage.specs.Calls.{accounted_of, judges_answer, share_of};

use crate::recordings::Bench;
use crate::{numbers, recordings};
use basics::Refusal;
use entries::Entry;
use rules::{Judge, Judged, Tally};

// Nothing used. An account has an entry for each of sixteen slots; a seventeenth can be lent with them.
pub(crate) fn zeros() -> [Entry; 17] {
    [Entry::zero(); 17]
}

// What the judge says, and the tally and the entries that it leaves.
#[derive(Clone, Copy)]
struct Answered {
    judged: Judged,
    tally: Tally,
    account: [Entry; 17],
}

// A recording's next bytes, judged with the tally and the first n entries lent to the library.
// Stays: `n ≤ 17` here, in `share_lent` and in `cycles::step_over`: how many are lent is a call's byte, and what is lent are slots' entries or nodes.
fn judge_lent(bytes: &[u8], state: Judge, totals: Tally, entries: [Entry; 17], n: usize) -> Answered
    requires { n ≤ 17 }
    ensures { (result.judged ≡ judges_answer (accounted_of bytes.now state totals (take n entries))) × ((result.tally ≡ (accounted_of bytes.now state totals (take n entries)).tally) × (result.account ≡ (accounted_of bytes.now state totals (take n entries)).entries ++ drop n entries)) }
{
    let mut tally = totals;
    let mut account = entries;
    let judged = accounts::judge_accounts(bytes, state, &mut tally, &mut account[..n]);
    Answered {
        judged,
        tally,
        account,
    }
}

// Call 23.
pub(crate) fn judge(call: &[u8; 64], out: &mut [u8; 64], bench: Bench) -> Bench {
    let size = numbers::size(call[1].min(48));
    let n = numbers::size(call[50].min(17));
    let used = bench.account;
    let answered = judge_lent(&call[2..2 + size], bench.judge, bench.tally, used, n);
    recordings::put_judged(out, answered.judged, answered.tally);
    let account = answered.account;
    Bench {
        judge: answered.judged.judge,
        tally: answered.tally,
        account,
    }
}

// A slot's entry, of an account of the first n entries that is lent to the library.
fn share_lent(slot: u8, tally: Tally, entries: [Entry; 17], n: usize) -> Result<Entry, Refusal>
    requires { n ≤ 17 }
    ensures { answered zero_entry result ≡ share_of slot tally (take n entries) }
{
    accounts::share(slot, tally, &entries[..n])
}

// Call 24. Nothing is altered.
pub(crate) fn put_share(call: &[u8; 64], out: &mut [u8; 64], bench: Bench) -> Bench {
    let n = numbers::size(call[2].min(17));
    let share = share_lent(call[1], bench.tally, bench.account, n);
    if let Some(entry) = numbers::accepted(out, share) {
        numbers::put(out, 1, entry.starts.to_be_bytes());
        numbers::put(out, 5, entry.busy.to_be_bytes());
    }
    bench
}

fn with_entry(entries: [Entry; 17], place: usize, entry: Entry) -> [Entry; 17]
    requires { place < 17 }
{
    let mut account = entries;
    account[place] = entry;
    account
}

// Call 25.
pub(crate) fn set_entry(call: &[u8; 64], bench: Bench) -> Bench {
    let entry = Entry {
        starts: numbers::word_at(call, 2),
        busy: numbers::long_at(call, 6),
    };
    let account = with_entry(bench.account, numbers::size(call[1]) % 17, entry);
    Bench { account, ..bench }
}
