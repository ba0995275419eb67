// What every crate says: a line as a number, a choice, and the first number that applies of several in their order.
#![tactic(auto)]

mod refusal;

ghost use Rattle.std.specs.Prelude.{◌≡◌, cond, ◌<◌};
ghost use Rattle.basics.specs.Lines.{one};
ghost use Rattle.basics.specs.Order.{unless};

pub use refusal::Refusal;

// An active line is 1.
pub fn one_if(active: bool) -> u8
    ensures { (result ≡ one active) × (result < 2) }
{
    if active { 1 } else { 0 }
}

// The one value or the other, of any type.
pub fn pick<T: Copy>(test: bool, a: T, b: T) -> T
    ensures { result ≡ cond test a b }
{
    if test { a } else { b }
}

// A number where what it stands for does not hold, and otherwise what the later ones say.
pub fn first(holds: bool, number: u8, rest: u8) -> u8
    ensures { result ≡ unless holds number rest }
{
    if holds { rest } else { number }
}
