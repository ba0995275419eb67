// The caller's table (document 01: "a table of sixteen node records that the caller lends: wants, holds, words"), read into sets of slots and a
// word array. What they come to is said in crate `cycle`, specs/Nodes.antt.
#![tactic(auto)]

ghost use Rattle.std.specs.Prelude.{◌≡◌, ◌<◌};
ghost use Rattle.cycle.specs.Nodes.{joined_of, add_of, sets_of};

use cycle::{Node, Sets};
use slots::with;

// The set with the slot in it, where its node says so.
#[tactic(auto, unfolding(cycle::specs::Nodes::joined_of))]
fn join_slot(set: u16, slot: usize, on: bool) -> u16
    requires { slot < 16 }
    ensures { result ≡ joined_of set slot on }
{
    if on { with(set, slot as u8) } else { set }
}

// The sets with the slot's node in them.
#[tactic(auto, unfolding(cycle::specs::Nodes::add_of))]
fn add_node(s: Sets, slot: usize, n: Node) -> Sets
    requires { slot < 16 }
    ensures { result ≡ add_of s slot n }
{
    let mut words = s.words;
    words[slot] = n.words;
    let wants = join_slot(s.wants, slot, n.wants);
    let holds = join_slot(s.holds, slot, n.holds);
    Sets {
        wants,
        holds,
        words,
    }
}

// The table that the caller lends, read into sets and a word array. A slot that it lacks asks for nothing, and no node past slot 15 is read.
pub fn gather(nodes: &[Node]) -> Sets
    ensures { result ≡ sets_of nodes.now }
{
    let mut sets = Sets::default();
    // Stays: over the slots, as `gathered` (cycle/specs/Nodes) goes, which has a blank node where the table lacks one; over the items it is a line less and a law more.
    for slot in 0..16 {
        let node = nodes.get(slot).copied().unwrap_or_default();
        sets = add_node(sets, slot, node);
    }
    sets
}
