// The bounds of a state and of a tally (document 01, "Bounds for refusal 5: .. for the judge, ..").
ghost use Rattle.std.specs.Prelude.{◌≡◌};
ghost use Rattle.rules.specs.Bounds.{transfer_bounds, owner_bounds, judge_bounds, tally_bounds};

use rules::{Judge, Tally, Transfer};

fn transfer_in_bounds(transfer: Transfer) -> bool
    ensures { result ≡ transfer_bounds transfer }
{
    match transfer {
        Transfer::Idle => true,
        Transfer::Open {
            words,
            strobes,
            age,
            busy,
        } => {
            (1 <= words)
                & (words <= 16)
                & (strobes < words)
                & (age <= Judge::WATCHDOG)
                & (busy <= Judge::WATCHDOG as u32 * strobes as u32 + age as u32 + 1)
        }
    }
}

fn owner_in_bounds(owner: Option<u8>) -> bool
    ensures { result ≡ owner_bounds owner }
{
    match owner {
        None => true,
        Some(slot) => slot <= 15,
    }
}

#[tactic(auto, unfolding(rules::specs::Bounds::judge_bounds))]
pub fn judge_in_bounds(judge: Judge) -> bool
    ensures { result ≡ judge_bounds judge }
{
    let wave = judge.wave;
    ((1 <= judge.limit) & (judge.limit <= Judge::MOST_STARTS))
        & transfer_in_bounds(judge.transfer)
        & (wave.turn <= judge.limit)
        & (wave.arb <= 15)
        & owner_in_bounds(wave.owner)
}

#[tactic(auto, unfolding(rules::specs::Bounds::tally_bounds))]
pub fn tally_in_bounds(tally: Tally) -> bool
    ensures { result ≡ tally_bounds tally }
{
    (tally.span <= 2147483648 * tally.records as u64)
        & (tally.starts <= tally.records)
        & (tally.acks <= tally.records)
        & (tally.aborted <= tally.records)
}
