// The bounds of a bus state and of a node's words (document 01, refusal 5: "a state .. outside the bounds below"; refusal 3: "a node's words not 0,
// 1, 2, 4, 8, 16"). The definitions stand in crate `cycle`, specs/Bounds.antt.
ghost use Rattle.std.specs.Prelude.{◌≡◌};
ghost use Rattle.cycle.specs.Bounds.{lawful_counts, lawful_owner, lawful_transfer, lawful_rest, in_bounds, lawful_word, lawful_words};

use cycle::{Bus, Transfer};

// An owner is a slot 0 to 15.
#[tactic(auto, unfolding(cycle::specs::Bounds::lawful_owner))]
fn is_owner(owner: Option<u8>) -> bool
    ensures { result ≡ lawful_owner owner }
{
    owner.is_none_or(|slot| slot < Bus::SLOTS)
}

// Words owed are 1 to 16.
#[tactic(auto, unfolding(cycle::specs::Bounds::lawful_transfer))]
fn is_transfer(transfer: Transfer) -> bool
    ensures { result ≡ lawful_transfer transfer }
{
    match transfer {
        Transfer::Idle => true,
        Transfer::Open { owed, .. } => 1 <= owed && owed <= Bus::WORDS_MOST,
    }
}

// Hold limit 1 to 16, settling count 0 to 2, turn below the limit.
#[tactic(auto, unfolding(cycle::specs::Bounds::lawful_counts))]
fn are_counts(b: Bus) -> bool
    ensures { result ≡ lawful_counts b.limit b.settling b.turn }
{
    Bus::is_limit(b.limit) && b.settling <= 2 && b.turn < b.limit
}

// With an empty wave the settling count and the turn are 0.
#[tactic(auto, unfolding(cycle::specs::Bounds::lawful_rest))]
fn is_rest(b: Bus) -> bool
    ensures { result ≡ lawful_rest b.wave b.settling b.turn }
{
    b.wave != 0 || (b.settling == 0 && b.turn == 0)
}

// Refusal 5: a state outside its bounds.
#[tactic(auto, unfolding(cycle::specs::Bounds::in_bounds))]
pub(crate) fn is_bounded(b: Bus) -> bool
    ensures { result ≡ in_bounds b }
{
    are_counts(b) && is_owner(b.owner) && is_transfer(b.transfer) && is_rest(b)
}

// Refusal 3: a node's words are 0, 1, 2, 4, 8 or 16.
#[tactic(auto, unfolding(cycle::specs::Bounds::lawful_word))]
fn is_word(n: u8) -> bool
    ensures { result ≡ lawful_word n }
{
    matches!(n, 0 | 1 | 2 | 4 | 8 | 16)
}

// Of all sixteen nodes, whether they want or not.
pub(crate) fn are_words(words: [u8; 16]) -> bool
    ensures { result ≡ lawful_words words }
{
    words.iter().all(|&n| is_word(n))
}
