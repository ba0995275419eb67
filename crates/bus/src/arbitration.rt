// Who starts in a cycle, and what becomes of the wave (document 01, "One bus cycle": "Wave empty before", "Wave not empty before", and the
// attention cycle). The definitions stand in crate `cycle`, specs/Arbitration.antt.
ghost use Rattle.std.specs.Prelude.{◌≡◌, ◌<◌, Some};
ghost use Rattle.cycle.specs.Arbitration.{attends, settled_at, formed, parked, forming, waits, stays, leaves, starting, serving, arbitration_of};

use contest::contest;
use cycle::{Arbitration, Bus, Sets, Transfer};
use slots::{member, without};

// A starter that no longer wants the bus, or has words 0, makes an attention cycle.
#[tactic(auto, unfolding(cycle::specs::Arbitration::attends))]
pub(crate) fn makes_attention(slot: u8, sets: Sets) -> bool
    ensures { result ≡ attends slot sets.wants sets.words }
{
    !member(sets.wants, slot) || sets.words[slot as usize] == 0
}

// The settling count n of a wave with members, else 0.
#[tactic(auto, using(std::proofs::lemmas::Bool::Decides::nat_tests))]
fn settle(n: u8, wave: u16) -> u8
    ensures { result ≡ settled_at n wave }
{
    if wave == 0 { 0 } else { n }
}

// All that want form the wave. One formed now gets settling count 1.
#[tactic(auto, unfolding(cycle::specs::Arbitration::formed))]
fn all_form(b: Bus, wants: u16) -> Arbitration
    ensures { result ≡ formed b wants }
{
    Arbitration {
        wave: wants,
        settling: settle(1, wants),
        turn: 0,
        owner: b.owner,
        starter: None,
    }
}

// The slot starts and becomes owner, its turn over, and the rest are the wave. Where members remain, the settling count is n.
fn start_out(slot: u8, n: u8, rest: u16) -> Arbitration
    ensures { result ≡ record { wave = rest; settling = settled_at n rest; turn = 0; owner = Some slot; starter = Some slot } }
{
    Arbitration {
        wave: rest,
        settling: settle(n, rest),
        turn: 0,
        owner: Some(slot),
        starter: Some(slot),
    }
}

// The owner is parked and starts now, and the others that want form the wave.
#[tactic(auto, unfolding(cycle::specs::Arbitration::parked))]
fn park(slot: u8, wants: u16) -> Arbitration
    ensures { result ≡ parked slot wants }
{
    let rest = without(wants, slot);
    start_out(slot, 1, rest)
}

// Wave empty before.
#[tactic(auto, unfolding(cycle::specs::Arbitration::forming))]
fn form(b: Bus, wants: u16) -> Arbitration
    ensures { result ≡ forming b.transfer b.owner b wants }
{
    match (b.transfer, b.owner) {
        (Transfer::Idle, Some(slot)) if member(wants, slot) => park(slot, wants),
        _ => all_form(b, wants),
    }
}

// Nobody starts, and the settling count is n.
fn wait(b: Bus, n: u8) -> Arbitration
    ensures { result ≡ waits b n }
{
    Arbitration {
        wave: b.wave,
        settling: n,
        turn: b.turn,
        owner: b.owner,
        starter: None,
    }
}

// The starter stays a member; its turn is counted up by this START.
fn stay(b: Bus, h: u8) -> Arbitration
    requires { b.turn < b.limit }
    ensures { result ≡ stays b h }
{
    Arbitration {
        wave: b.wave,
        settling: 2,
        turn: b.turn + 1,
        owner: Some(h),
        starter: Some(h),
    }
}

// The starter leaves now and the turn is 0.
#[tactic(auto, unfolding(cycle::specs::Arbitration::leaves))]
fn leave(b: Bus, h: u8) -> Arbitration
    ensures { result ≡ leaves b h }
{
    let rest = without(b.wave, h);
    start_out(h, 2, rest)
}

// The highest member starts: it stays only if it holds, makes no attention cycle and has STARTs left in its turn.
#[tactic(auto, unfolding(cycle::specs::Arbitration::starting))]
fn start(b: Bus, h: u8, sets: Sets) -> Arbitration
    requires { b.turn < b.limit }
    ensures { result ≡ starting b h sets.wants sets.holds sets.words }
{
    let more = b.turn + 1 < b.limit;
    if member(sets.holds, h) && !makes_attention(h, sets) && more {
        stay(b, h)
    } else {
        leave(b, h)
    }
}

// Wave not empty before, and settled: the contest among its members is decided once the bus is idle.
#[tactic(auto, using(crate::proofs::Laws::serve_start, crate::proofs::Laws::serve_somebody), unfolding(cycle::specs::Arbitration::serving))]
fn serve(b: Bus, sets: Sets) -> Arbitration
    requires { (b.turn < b.limit) × (b.wave ≡ 0 → ⊥) }
    ensures { result ≡ serving b.transfer b sets.wants sets.holds sets.words }
{
    let before = b.transfer;
    match before {
        Transfer::Idle => match contest(b.wave) {
            Some(h) => start(b, h, sets),
            None => wait(b, 0),
        },
        Transfer::Open { .. } => wait(b, 0),
    }
}

// Wave empty before; or a settling count above 0 falls by 1; or the wave is settled.
#[tactic(auto, unfolding(cycle::specs::Arbitration::arbitration_of))]
pub(crate) fn arbitrate(b: Bus, sets: Sets) -> Arbitration
    requires { b.turn < b.limit }
    ensures { result ≡ arbitration_of b.transfer b sets.wants sets.holds sets.words }
{
    if b.wave == 0 {
        form(b, sets.wants)
    } else if 0 < b.settling {
        wait(b, b.settling - 1)
    } else {
        serve(b, sets)
    }
}
