// Charging the records that the judge has passed to the slots that they belong to (document 02, wish 3, "Who used the bus"): a second pass over their
// bytes, which reads five bytes of a record and touches an entry only at a START, an ACK or a RESET.
ghost use Rattle.std.specs.Prelude.{◌≡◌, ◌+◌, ◌-◌, ◌*◌, ◌^◌, ◌<◌, ◌≤◌, length, take};
ghost use Rattle.basics.specs.Lines.{one};
ghost use Rattle.record.specs.Layout.{record_in};
ghost use Rattle.rules.specs.Rules.{difference};
ghost use Rattle.rules.specs.Run.{records_in};
ghost use Rattle.rules.specs.State.{open_busy};
ghost use Rattle.usage.specs.Charge.{slot_of, added as addedTo, account_of};
ghost use Rattle.accounts.specs.Watch.{shown_of, last_of, watch_of, idled_of, charged_of, slot_by, busy_by, charged_by, Roomy, Chargeable};

use entries::Entry;
use rules::Judge;

// ---- a record

// Stays: `counts` says what the record is, and each field is there whatever it says, so an Option around them is no plainer.
// What of a record an account hangs on. `counts` says that it has START, ACK or RESET: no other record changes an entry.
#[derive(Clone, Copy)]
struct Shown {
    stamp: u32,
    reset: bool,
    rqst: bool,
    arb: u8,
    start: bool,
    ack: bool,
    counts: bool,
}

// The record at the front of a part. `record::lines_in` reads all of its fields, and where it isn't inlined costs five times as much as this pass.
fn shown_in(part: &[u8]) -> Shown
    requires { 16 ≤ length part.now }
    ensures { result ≡ shown_of (record_in (take 16 part.now)) }
{
    let four = part[4];
    let stamp = u32::from_be_bytes([part[0], part[1], part[2], part[3]]);
    Shown {
        stamp,
        reset: four / 128 % 2 == 1,
        rqst: four / 64 % 2 == 1,
        arb: four / 4 % 16,
        start: four / 2 % 2 == 1,
        ack: four % 2 == 1,
        counts: four / 128 * 128 + four % 4 != 0,
    }
}

// ---- the state

// Stays: one place reads it, `pick(opened, stamp - began, 0)`; of an Option that is `map_or(0, |began| stamp - began)`, no plainer.
// What is kept of the records before: the last one's stamp and RQST, the owner's slot, and whether a transfer is open and the cycle before its START.
// So a record between START and ACK leaves it but for the first two.
#[derive(Clone, Copy)]
pub(crate) struct Watch {
    pub(crate) stamp: u32,
    pub(crate) rqst: bool,
    pub(crate) slot: u8,
    pub(crate) opened: bool,
    pub(crate) began: u32,
}

// What the judge's state says, before a record with this stamp.
fn watch_of(judge: Judge, first: u32) -> Watch
    ensures { result ≡ watch_of judge first }
{
    let last = basics::pick(judge.seen, judge.stamp, first);
    Watch {
        stamp: last,
        rqst: judge.wave.rqst,
        slot: judge.wave.owner.unwrap_or(0),
        opened: rules::is_open(judge.transfer),
        began: last.wrapping_sub(judge.transfer.counts().busy),
    }
}

// After a record that was charged to this slot: a START makes it the owner's, and RESET leaves nothing.
fn after_charge(shown: Shown, slot: u8) -> Watch
    ensures { result ≡ charged_of shown slot }
{
    if shown.reset {
        return Watch {
            stamp: shown.stamp,
            rqst: false,
            slot: 0,
            opened: false,
            began: shown.stamp,
        };
    }
    Watch {
        stamp: shown.stamp,
        rqst: shown.rqst,
        slot,
        opened: shown.start & !shown.ack,
        began: shown.stamp.wrapping_sub(1),
    }
}

// ---- what a record adds

// "A parked START is the owner's", and so is what ends; a wave's START is its ARB's.
fn slot_of(watch: Watch, shown: Shown) -> u8
    ensures { result ≡ slot_by watch shown }
{
    let asked = (shown.stamp.wrapping_sub(watch.stamp) == 1) & watch.rqst;
    basics::pick(shown.start & !shown.reset & asked, shown.arb, watch.slot)
}

// "START to ACK or abort, both ends counted, an attention cycle being 1".
fn busy_of(watch: Watch, shown: Shown) -> u32
    ensures { result ≡ busy_by watch shown }
{
    let attention = basics::one_if(shown.ack) as u32;
    let ended = basics::pick(watch.opened, shown.stamp.wrapping_sub(watch.began), 0);
    basics::pick(shown.start & !shown.reset, attention, ended)
}

fn added(entry: Entry, starts: bool, busy: u32) -> Entry
    requires { (entry.starts < 2 ^ 32 - 1) × (entry.busy < 2 ^ 63 + 2 ^ 62) }
    ensures { result ≡ addedTo entry (one starts) busy }
{
    Entry {
        starts: entry.starts + basics::one_if(starts) as u32,
        busy: entry.busy + busy as u64,
    }
}

// ---- the pass

// What was kept and the account, after some records.
#[derive(Clone, Copy)]
pub(crate) struct Charged {
    pub(crate) watch: Watch,
    pub(crate) entries: [Entry; 16],
}

// Goes on with the first n records of these bytes. Just the record's sixteen bytes are lent, so that the compiler sees that there are enough.
pub(crate) fn charge_on(bytes: &[u8], n: usize, watch: Watch, entries: [Entry; 16]) -> Charged
    requires { Roomy bytes.now n watch entries }
    ensures { result ≡ charged_by watch entries (records_in n bytes.now) }
{
    let mut account = entries;
    let mut state = watch;
    for i in 0..n {
        let at = i * 16;
        let end = at + 16;
        let shown = shown_in(&bytes[at..end]);
        if shown.counts {
            let slot = slot_of(state, shown);
            let busy = busy_of(state, shown);
            let place = slot as usize;
            account[place] = added(account[place], shown.start & !shown.reset, busy);
            state = after_charge(shown, slot);
        } else {
            state = Watch {
                stamp: shown.stamp,
                rqst: shown.rqst,
                ..state
            };
        }
    }
    Charged {
        watch: state,
        entries: account,
    }
}

// What the judge's state says before the record at the front of a part.
pub(crate) fn watch_before(judge: Judge, part: &[u8]) -> Watch
    requires { 16 ≤ length part.now }
    ensures { result ≡ watch_of judge (record_in (take 16 part.now)).stamp }
{
    watch_of(judge, shown_in(part).stamp)
}

// The account after the first n records of these bytes, which the judge has passed from this state.
pub(crate) fn count_records(
    bytes: &[u8],
    n: usize,
    judge: Judge,
    entries: [Entry; 16],
) -> [Entry; 16]
    requires { Chargeable bytes.now n judge entries }
    ensures { result ≡ account_of judge entries (records_in n bytes.now) }
{
    if n == 0 {
        return entries;
    }
    charge_on(bytes, n, watch_before(judge, bytes), entries).entries
}
