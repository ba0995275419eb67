// The worst wait that a laboratory plans by: what demand 3 proves for a master that asks and goes on asking, by its slot and the hold limit.
#![tactic(auto)]

ghost use Rattle.std.specs.Prelude.{◌≡◌, ◌<◌, ◌≤◌, IfOk};
ghost use Rattle.cycle.specs.Waits.{turns_most};
ghost use Rattle.quote.specs.Quotes.{worst_of, quote_of, quote_answer};
ghost use Rattle.quote.specs.Quoted.{Quoted};

use basics::Refusal;
use cycle::Bus;

// At most so many STARTs of others before the own START, which comes within so many cycles.
#[derive(Clone, Copy)]
pub struct Worst {
    pub others: u32,
    pub cycles: u32,
}

// While a wave has members, the next START comes at most so many cycles after the last: the watchdog's for each word (document 02, wish 5), and in
// the cycle behind the ACK.
// Stays: `as` and not `From`, which a const can't call.
const PAUSE: u32 = Bus::WATCHDOG as u32 * Bus::WORDS_MOST as u32 + 1;

// The STARTs of others in waves.
fn turns(slot: u8, limit: u8) -> u32
    requires { (slot < 16) × (limit ≤ 16) }
    ensures { (result ≡ turns_most limit slot) × (result ≤ 480) }
{
    (30 - u32::from(slot)) * u32::from(limit)
}

// One START more comes between waves, but none before slot 0.
fn worst_of(slot: u8, limit: u8) -> Worst
    requires { (slot < 16) × (limit ≤ 16) }
    ensures { result ≡ worst_of slot limit }
{
    let turns = turns(slot, limit);
    let between = u32::from(slot.min(1));
    Worst {
        others: turns + between,
        cycles: PAUSE * (turns + 1) + between,
    }
}

// The worst wait of a master in this slot, or refusal 2 or 3: the theorem's own bound. What it promises of every run of the bus is said beside the
// equation.
#[tactic(auto, using(crate::proofs::Laws::limit_between, crate::proofs::Laws::bad_limit, crate::proofs::Laws::bad_slot))]
pub fn worst_wait(slot: u8, limit: u8) -> Result<Worst, Refusal>
    ensures { (quote_answer result ≡ quote_of slot limit) × IfOk result (Quoted slot limit) }
{
    if slot >= Bus::SLOTS {
        return Err(Refusal::Place);
    }
    let lawful = Bus::is_limit(limit);
    if !lawful {
        return Err(Refusal::Value);
    }
    Ok(worst_of(slot, limit))
}
