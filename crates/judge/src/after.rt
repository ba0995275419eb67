// The state and the tally after a record that breaks no rule (document 01, "The judge", and its "Totals").
ghost use Rattle.std.specs.Prelude.{◌≡◌, true, false, cond, ◌+◌, ◌^◌, ◌≤◌, ◌<◌, Some};
ghost use Rattle.codes.specs.Owed.{words_of};
ghost use Rattle.rules.specs.Rules.{rule12};
ghost use Rattle.rules.specs.State.{is_open, open_age, aged_of, transfer_of, capped, wave_of, reset_of, moved_of, judge_of, tally_of};
ghost use Rattle.rules.specs.Bounds.{SoundTransfer, SoundJudge, SoundTally};
ghost use Rattle.rules.specs.Run.{from as starting};

use record::Record;
use rules::{Judge, Progress, Tally, Transfer, Wave};

// The age returns to 0 with each strobe of a block (02, wish 5).
fn age_after(strobe: bool, age: u32) -> u32
    ensures { (result ≡ cond strobe 0 age) × (result ≤ age) }
{
    if strobe { 0 } else { age }
}

// A transfer that stays open ages by the cycles since the last record, is busy in them, and counts a strobe, which restarts the age.
pub(crate) fn aged(transfer: Transfer, lines: Record, d: u32) -> Transfer
    requires { SoundTransfer transfer × (rule12 (is_open transfer) (open_age transfer) d ≡ true) }
    ensures { result ≡ aged_of transfer lines.start lines.ack lines.tm0 d }
{
    match transfer {
        Transfer::Idle => Transfer::Idle,
        Transfer::Open {
            words,
            strobes,
            age,
            busy,
        } => {
            let counts = rules::is_strobe(words, lines.start, lines.ack, lines.tm0);
            let with = strobes + basics::one_if(counts);
            let older = age_after(counts, age as u32 + d);
            let longer = busy + d;
            Transfer::Open {
                words,
                strobes: with,
                age: older as u16,
                busy: longer,
            }
        }
    }
}

// ACK ends a transfer, a START without ACK opens one.
fn next_transfer(transfer: Transfer, lines: Record, d: u32) -> Transfer
    requires { SoundTransfer transfer × (rule12 (is_open transfer) (open_age transfer) d ≡ true) }
    ensures { result ≡ transfer_of transfer lines.start lines.ack lines.tm0 (words_of lines.tm0 lines.ad) d }
{
    if lines.ack {
        return Transfer::Idle;
    }
    if lines.start {
        return Transfer::Open {
            words: codes::words_owed(lines.tm0, lines.ad),
            strobes: 0,
            age: 0,
            busy: 1,
        };
    }
    aged(transfer, lines, d)
}

// Cycles since the wave's last START; three or more are kept as 3.
fn next_since(since: u8, d: u32) -> u8
    ensures { result ≡ capped (since + d) }
{
    (since as u64 + d as u64).min(3) as u8
}

// A START of a wave makes its master the owner.
pub(crate) fn next_owner(starts: bool, arb: u8, owner: Option<u8>) -> Option<u8>
    ensures { result ≡ cond starts (Some arb) owner }
{
    basics::pick(starts, Some(arb), owner)
}

fn next_wave(wave: Wave, lines: Record, d: u32) -> Wave
    requires { wave.turn ≤ 16 }
    ensures { result ≡ wave_of wave lines.rqst lines.start lines.arb d }
{
    let arb = lines.arb;
    let rqst = lines.rqst;
    let one = breach::asked(wave, d);
    let starts = lines.start & one;
    let since = basics::pick(starts, 0, next_since(wave.since, d));
    let last = basics::pick(starts, arb, wave.arb);
    let again = basics::pick(arb == wave.arb, wave.turn + 1, 1);
    let turn = basics::pick(starts, again, wave.turn);
    Wave {
        rqst,
        prior: one,
        owner: next_owner(starts, arb, wave.owner),
        since: basics::pick(rqst, since, 3),
        arb: basics::pick(rqst, last, 15),
        turn: basics::pick(rqst, turn, 0),
    }
}

// The judge goes on from this record: its limit stays, and the record's stamp is the last one.
pub(crate) fn state_after(judge: Judge, stamp: u32, transfer: Transfer, wave: Wave) -> Judge
    ensures { result ≡ record { limit = judge.limit; seen = true; stamp = stamp; transfer = transfer; wave = wave } }
{
    Judge {
        seen: true,
        stamp,
        transfer,
        wave,
        ..judge
    }
}

// "If RESET is active, .. the judge is as at the start but for its stamp and tally".
fn after_reset(judge: Judge, stamp: u32) -> Judge
    ensures { result ≡ reset_of judge stamp }
{
    state_after(judge, stamp, Transfer::Idle, Wave::fresh())
}

fn moved(judge: Judge, lines: Record, d: u32) -> Judge
    requires { SoundJudge judge × (rule12 (is_open judge.transfer) (open_age judge.transfer) d ≡ true) }
    ensures { result ≡ moved_of judge lines d }
{
    let transfer = next_transfer(judge.transfer, lines, d);
    state_after(
        judge,
        lines.stamp,
        transfer,
        next_wave(judge.wave, lines, d),
    )
}

// No rule but 1 and 2 applies to a record with RESET, so that there the age may be any.
pub(crate) fn next_judge(judge: Judge, lines: Record, d: u32) -> Judge
    requires { SoundJudge judge × (lines.reset ≡ false → rule12 (is_open judge.transfer) (open_age judge.transfer) d ≡ true) }
    ensures { result ≡ judge_of judge lines d }
{
    if lines.reset {
        return after_reset(judge, lines.stamp);
    }
    moved(judge, lines, d)
}

// The by-value update of the tally: the stamp's difference is summed into a 64-bit span.
fn counted(tally: Tally, busy: bool, lines: Record, d: u32) -> Tally
    requires { SoundTally tally × (tally.records < 2 ^ 30) }
    ensures { result ≡ tally_of tally busy lines.reset lines.start lines.ack d }
{
    Tally {
        records: tally.records + 1,
        span: tally.span + d as u64,
        starts: tally.starts + basics::one_if(lines.start & !lines.reset) as u32,
        acks: tally.acks + basics::one_if(lines.ack & !lines.reset) as u32,
        aborted: tally.aborted + basics::one_if(busy & lines.reset) as u32,
    }
}

// A record judged that breaks no rule: `next` is the state after it, and the tally has it counted.
pub(crate) fn unbroken(judge: Judge, tally: Tally, lines: Record, d: u32, next: Judge) -> Progress
    requires { SoundTally tally × (tally.records < 2 ^ 30) }
    ensures { result ≡ starting next (tally_of tally (is_open judge.transfer) lines.reset lines.start lines.ack d) }
{
    let tally = counted(tally, rules::is_open(judge.transfer), lines, d);
    Progress {
        rule: 0,
        kind: 0,
        span: 0,
        judge: next,
        tally,
    }
}
