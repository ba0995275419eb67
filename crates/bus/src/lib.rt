// One bus cycle (document 01, "One bus cycle"), and a call of the step. The definitions stand in crate `cycle`, specs/Cycle.antt and Nodes.antt. The
// state goes in and comes back by value. `step` takes the caller's table of sixteen nodes; `step_sets` the sets and words that crate `nodes`
// reads from one.
#![tactic(auto)]

mod arbitration;
mod bounds;
mod transfers;

ghost use Rattle.std.specs.Prelude.{◌≡◌, ◌<◌, cond, eqb};
ghost use Rattle.basics.specs.Answers.{refused};
ghost use Rattle.cycle.specs.Bounds.{in_bounds};
ghost use Rattle.cycle.specs.Cycle.{moved_by, cycle_of, reset_of, unmoved, answer_of};
ghost use Rattle.cycle.specs.Nodes.{step_sets_of, step_table_of};

use arbitration::arbitrate;
use basics::Refusal;
use bounds::{are_words, is_bounded};
use cycle::{Arbitration, Bus, Event, Moved, Node, Progress, Reply, Sets, Transfer};
use transfers::carry;

// Stays: bus, event, sets and reset go as values of their own, as the public `step_sets` takes them and `cycle_of` and `step_sets_of` have them.
// The state after the cycle and its reply, from what arbitration and the transfer come to. START is active exactly if somebody starts.
#[tactic(auto, unfolding(cycle::specs::Cycle::moved_by, cycle::specs::Cycle::state_by, cycle::specs::Cycle::reply_by))]
fn join(b: Bus, a: Arbitration, p: Progress) -> Moved
    ensures { result ≡ moved_by b a p }
{
    Moved {
        bus: Bus {
            wave: a.wave,
            settling: a.settling,
            turn: a.turn,
            owner: a.owner,
            limit: b.limit,
            transfer: p.transfer,
        },
        reply: Reply {
            rqst: a.wave != 0,
            start: a.starter.is_some(),
            ack: p.ack,
            starter: a.starter,
            status: p.status,
            note: p.note,
        },
    }
}

// A cycle with no reset.
// Stays: `b.turn < b.limit` in the clauses of six functions, since a caller makes a `Bus` of any values and `step` refuses those out of bounds by 5
// (`in_bounds`); a type for those that pass would be taken apart again in each.
#[tactic(auto, unfolding(cycle::specs::Cycle::cycle_of, cycle::specs::Cycle::cycle_by))]
fn cycle(b: Bus, e: Event, sets: Sets) -> Moved
    requires { b.turn < b.limit }
    ensures { result ≡ cycle_of b e sets.wants sets.holds sets.words }
{
    let a = arbitrate(b, sets);
    let p = carry(b.transfer, e, a.starter, sets);
    join(b, a, p)
}

// Reset: the state becomes fresh, all lines are inactive, the rest is skipped.
fn reset_of(b: Bus) -> Moved
    ensures { result ≡ reset_of b }
{
    Moved {
        bus: Bus {
            wave: 0,
            settling: 0,
            turn: 0,
            owner: None,
            transfer: Transfer::Idle,
            ..b
        },
        reply: Reply::default(),
    }
}

// Where nothing is refused: a reset or a cycle.
fn move_on(b: Bus, reset: bool, e: Event, sets: Sets) -> Moved
    requires { b.turn < b.limit }
    ensures { result ≡ cond reset (reset_of b) (cycle_of b e sets.wants sets.holds sets.words) }
{
    if reset {
        reset_of(b)
    } else {
        cycle(b, e, sets)
    }
}

// A call over the sets of a table of `len` nodes: refusals 5, 1 and 3 in this order, each of which moves nothing.
#[tactic(auto, using(crate::proofs::Laws::bounds_turn, crate::proofs::Laws::step_bounds, crate::proofs::Laws::step_length, crate::proofs::Laws::step_words, crate::proofs::Laws::step_moves))]
fn step_table(b: Bus, reset: bool, e: Event, len: usize, sets: Sets) -> Result<Moved, Refusal>
    ensures { answer_of b result ≡ cond (in_bounds b) (cond (eqb len 16) (step_sets_of b reset e sets) (refused 1 (unmoved b))) (refused 5 (unmoved b)) }
{
    if !is_bounded(b) {
        return Err(Refusal::Bounds);
    }
    if len != 16 {
        return Err(Refusal::Length);
    }
    if !are_words(sets.words) {
        return Err(Refusal::Value);
    }
    Ok(move_on(b, reset, e, sets))
}

// One bus cycle over the sets of slots that want and hold, and each slot's words; or a refusal, which moves nothing.
pub fn step_sets(b: Bus, reset: bool, e: Event, sets: Sets) -> Result<Moved, Refusal>
    ensures { answer_of b result ≡ step_sets_of b reset e sets }
{
    step_table(b, reset, e, 16, sets)
}

// One bus cycle over the table of sixteen node records that the caller lends; or a refusal, which moves nothing.
pub fn step(b: Bus, reset: bool, e: Event, nodes: &[Node]) -> Result<Moved, Refusal>
    ensures { answer_of b result ≡ step_table_of b reset e nodes.now }
{
    step_table(b, reset, e, nodes.len(), nodes::gather(nodes))
}
