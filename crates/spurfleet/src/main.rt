// The program of a fleet's figures: its words are numbers, and it prints one line over all of them. What a word says is decided by `figures`, the
// figures by `fleet`, and the line by `fleetlines`.
#![tactic(auto)]

ghost use Rattle.std.specs.Prelude.{◌≡◌, ◌≤◌, ◌<◌, length};
ghost use Rattle.spurfleet.specs.Words.{is_figure, with_figure, Given, Prints};

use std::env::Env;
use text::Place;

// As many words are taken, and no more.
const MOST: usize = 4096;

// Why there is no line.
#[derive(Clone, Copy, PartialEq, Eq)]
enum Untold {
    NoFigure,
    TooMany,
}

// Keeps the number that a word says, and answers whether it says one.
fn keep(numbers: &mut [u64], at: usize, figure: Option<u64>) -> bool
    requires { at < length numbers.old }
    ensures { (result ≡ is_figure figure) × (numbers.new ≡ with_figure numbers.old at figure) }
{
    match figure {
        Some(n) => {
            numbers[at] = n;
            true
        }
        None => false,
    }
}

// Takes in the words behind the program's name, so many, and answers whether each of them is a figure.
// Stays: no `?` at the first word that is none, since the clause `amiss` of `Prints` speaks of all the words.
fn take_words(rt: &impl Env, count: usize, numbers: &mut [u64]) -> bool
    requires { count ≤ length numbers.old }
    ensures { Given count numbers.new result }
{
    let mut word = io::buffer();
    let mut good = true;
    for next in 0..count {
        let size = reading::word_given(rt, next + 1, &mut word);
        let figure = figures::figure_in(&word[..size]);
        good = keep(numbers, next, figure) & good;
    }
    good
}

// Puts the line of the numbers that so many words say, and answers how many bytes it has.
fn told(rt: &impl Env, count: usize, line: &mut [u8]) -> Result<usize, Untold>
    requires { length line.old ≡ 192 }
    ensures { Prints count line.new result }
{
    if count > MOST {
        return Err(Untold::TooMany);
    }
    let mut numbers = [0; MOST];
    if !take_words(rt, count, &mut numbers) {
        return Err(Untold::NoFigure);
    }
    let summary = fleet::summarize(&numbers[..count]);
    let end = fleetlines::put_summary(line, Place::front(), summary);
    Ok(end.at)
}

fn main(rt: HostRuntime) {
    let mut line = [0; 192];
    // its own name is the first of the words
    match told(&rt, reading::words_given(&rt).saturating_sub(1), &mut line) {
        Ok(n) => {
            reading::print(
                &mut rt.stdout(),
                &mut rt.stderr(),
                &line[..n],
                b"spurfleet: standard output can't be written\n",
            );
        }
        Err(Untold::NoFigure) => {
            reading::complain(
                &mut rt.stderr(),
                b"spurfleet: each word is to be a number of 1 to 19 digits\n",
            );
        }
        Err(Untold::TooMany) => {
            reading::complain(
                &mut rt.stderr(),
                b"spurfleet: at most 4096 numbers are taken\n",
            );
        }
    }
}
