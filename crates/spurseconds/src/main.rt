// The program of times: each of its words is a number of bus cycles, and for each it prints the time in seconds on a line of its own. It asks for words
// and writes; what a line says is decided by `put_line`, and so by `figures`.
#![tactic(auto)]

ghost use Rattle.std.specs.Prelude.{◌≡◌};
ghost use Rattle.text.specs.Pages.{grown};
ghost use Rattle.spurseconds.specs.Lines.{time_line, seconds_line, Goes, Told};

use std::env::Env;
use text::{Page, Place};

// Enough for a line.
const LINE: usize = 64;

// ---- the lines

// The time of so many cycles and a newline.
fn put_time<const N: usize>(page: &mut Page<N>, cycles: u64)
    ensures { page.new ≡ grown N page.old (time_line cycles) }
{
    figures::add_seconds(page, cycles);
    page.put(b"\n");
}

// The line of a word; nothing where the word has none.
fn put_line<const N: usize>(page: &mut Page<N>, word: &[u8])
    ensures { page.new ≡ grown N page.old (seconds_line word.now) }
{
    match figures::figure_in(word) {
        Some(cycles) => put_time(page, cycles),
        None => {}
    }
}

// ---- the program

// Why a word's line isn't printed: it has none, or the line can't be written.
#[derive(Clone, Copy, PartialEq, Eq)]
enum Untold {
    NoLine,
    CantWrite,
}

// Prints a word's line where it has one.
fn tell(word: &[u8]) -> Result<(), Untold>
    ensures { Goes (seconds_line word.now) result }
{
    let mut page = Page::<LINE>::new();
    put_line(&mut page, word);
    let mut line = [0; LINE];
    let size = page.put_into(&mut line, Place::front()).at;
    let no_line = size == 0;
    if no_line {
        return Err(Untold::NoLine);
    }
    if io::write_all(reading::STDOUT, &line[..size]) {
        Ok(())
    } else {
        Err(Untold::CantWrite)
    }
}

// Prints the lines of the program's words behind its own name, up to the first of which it can't.
fn tell_all(rt: &impl Env, words: usize) -> Result<(), Untold>
    ensures { Told words result }
{
    let mut word = io::buffer();
    for next in 1..words {
        let size = reading::word_given(rt, next, &mut word);
        tell(&word[..size])?;
    }
    Ok(())
}

fn main(rt: HostRuntime) {
    match tell_all(&rt, reading::words_given(&rt)) {
        Ok(()) => {}
        Err(Untold::NoLine) => {
            reading::complain(
                &mut rt.stderr(),
                b"spurseconds: a number of cycles is to have 1 to 19 digits\n",
            );
        }
        Err(Untold::CantWrite) => {
            reading::complain(
                &mut rt.stderr(),
                b"spurseconds: standard output can't be written\n",
            );
        }
    }
}
