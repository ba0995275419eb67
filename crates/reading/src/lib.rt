// What the programs share that read a recording on standard input: a read as a value, the loop that feeds what the reads bring, what there is to say,
// and the hold limit that they are given.
#![tactic(auto)]

ghost use Rattle.std.specs.Prelude.{◌≡◌, ◌≤◌, Bool, true, List, length, min, take, ℕ, ℤ, Ok, Err};
ghost use Rattle.std.specs.Io.{WritesAtMost};
ghost use Rattle.std.specs.Io.KnownBytes.{Appends};
ghost use Rattle.basics.specs.Answers.{answered};
ghost use Rattle.io.specs.Counts.{IsPrefixLen};
ghost use Rattle.reading.specs.Reads.{brought_by, Feeder, taken_in, after_read, Piecewise, ReadOut};
ghost use Rattle.reading.specs.Pages.{Telling, Making, Prints};
ghost use Rattle.text.specs.Places.{front, moved_by, put_at};
ghost use Rattle.reading.specs.Words.{limit_given};

use basics::Refusal;
use rules::Judge;
use std::env::{Env, FillError};
use std::io::{Read, Stdin, Write};
use text::Place;

// The descriptors of a program's input and of what it writes.
pub const STDIN: i32 = 0;

pub const STDOUT: i32 = 1;

pub const STDERR: i32 = 2;

// Every read but the last brings a byte or more, and with the bytes of one record past 2^30 no more of an input counts: so many reads are enough.
pub const TURNS: u64 = (Judge::MOST_RECORDS as u64 + 1) * 16;

// That standard input can't be read: what a program says in place of a text.
#[derive(Clone, Copy, PartialEq, Eq)]
pub struct CantRead;

// What is fed with the bytes of an input: what a piece of them makes of its state, whether more of the input counts after that, and the text that there is
// for it in the end.
pub trait Machine {
    type State: Copy;

    ghost feeder: { Feeder Self.State };

    ghost says: { Self.State → List ℕ };

    // A piece that is refused leaves the state as it was.
    fn feed(state: Self::State, piece: &[u8]) -> Result<Self::State, Refusal>
        ensures { (answered state result).value ≡ feeder.fed state piece.now };

    fn wants_more(state: &Self::State) -> bool
        ensures { result ≡ feeder.going state.now };

    // Puts the text to the page's front.
    fn put_text(state: Self::State, page: &mut [u8]) -> Place
        ensures { (result ≡ moved_by (length page.old) front (length (says state))) × (page.new ≡ put_at page.old front (says state)) };
}

// A program's input so far: the state, whether to read on, and whether the last read failed.
// Stays: the definitions `taken_in` and `ReadOut` name both flags, and `definition_failed_read_prints` is an edit of one.
#[derive(Clone, Copy)]
pub struct Input<S> {
    pub state: S,
    pub more: bool,
    pub failed: bool,
}

// What a read's answer and the buffer after it come to. That the bytes stand in the buffer follows, and is said so that `&buffer[..size]` asks for
// nothing more.
fn taken(got: isize, buffer: &[u8]) -> Result<usize, CantRead>
    ensures value { result ≡ brought_by (record { got = got; buffer = buffer.now }) }
    ensures bound { WritesAtMost result buffer.now }
{
    let failed = got < 0;
    if failed {
        return Err(CantRead);
    }
    Ok(io::count(got, buffer))
}

// Reads once from standard input: so many bytes come, which stand at the buffer's front. A call that a signal interrupts is one that failed.
pub fn read_once(mut input: Stdin, buffer: &mut [u8]) -> Result<usize, CantRead>
    ensures value { (got : ℤ) × (result ≡ brought_by (record { got = got; buffer = buffer.new })) }
    ensures bound { WritesAtMost result buffer.new }
{
    let got = match input.read(buffer) {
        Ok(n) => n as isize,
        Err(_) => -1,
    };
    taken(got, buffer)
}

// Takes in the bytes that a read brought: none at the input's end, or where it failed.
fn take_in<M: Machine>(bytes: &[u8], failed: bool, input: Input<M::State>) -> Input<M::State>
    ensures { result ≡ taken_in M.feeder input failed bytes.now }
{
    if bytes.is_empty() {
        return Input {
            more: false,
            failed,
            ..input
        };
    }
    let state = M::feed(input.state, bytes).unwrap_or(input.state);
    Input {
        state,
        more: M::wants_more(&state),
        failed: false,
    }
}

// Reads once more.
fn read_more<M: Machine>(stdin: Stdin, buffer: &mut [u8], input: Input<M::State>) -> Input<M::State>
    ensures { (got : ℤ) × (result ≡ after_read M.feeder input (record { got = got; buffer = buffer.new })) }
{
    let got = read_once(stdin, buffer);
    take_in::<M>(&buffer[..got.unwrap_or(0)], got.is_err(), input)
}

// Reads until it need read no more.
fn read_all<M: Machine>(stdin: Stdin, buffer: &mut [u8], begun: M::State) -> Input<M::State>
    ensures { (fresh : M.State) → begun ≡ fresh → Piecewise M.feeder fresh → ReadOut M.feeder fresh result }
{
    let mut input = Input {
        state: begun,
        more: true,
        failed: false,
    };
    for turn in 0..TURNS {
        if !input.more {
            return input;
        }
        input = read_more::<M>(stdin, buffer, input);
    }
    input
}

// Makes the text for an input that has been read: so many of the page's first bytes. There is none after a read that failed: what was not read may change it.
fn told<M: Machine>(input: Input<M::State>, page: &mut [u8]) -> Result<usize, CantRead>
    ensures { (begun : M.State) (lawful : Bool) (text : List ℕ → List ℕ) → lawful ≡ true → Piecewise M.feeder begun → Telling M.feeder begun text M.says
        → length (M.says input.state) ≤ length page.old → ReadOut M.feeder begun input → Prints M.feeder begun lawful text page.new result }
{
    if input.failed {
        return Err(CantRead);
    }
    Ok(M::put_text(input.state, page).at)
}

// What a program makes of its input: it reads, and makes the text for that; or where its words were refused the refusal's line, and reads nothing.
pub fn made<M: Machine>(
    stdin: Stdin,
    begun: Result<M::State, Refusal>,
    buffer: &mut [u8],
    page: &mut [u8],
) -> Result<usize, CantRead>
    ensures { (fresh : M.State) (lawful : Bool) (text : List ℕ → List ℕ) → Making M.feeder begun fresh lawful text M.says (length page.old)
        → Prints M.feeder fresh lawful text page.new result }
{
    match begun {
        Ok(state) => {
            let input = read_all::<M>(stdin, buffer, state);
            told::<M>(input, page)
        }
        Err(refusal) => Ok(printed::put_refused(page, Place::front(), refusal.number()).at),
    }
}

// Writes a line to standard error, and answers whether all of it was written.
pub fn complain<E: Write>(err: &mut E, line: &[u8]) -> bool
    ensures { result ≡ true → Appends (E.contents err.old) (E.contents err.new) line.now }
{
    err.write_all(line).is_ok()
}

// Writes a page to standard output, and complains where it can't. Answers whether all of the page was written.
pub fn print<O: Write, E: Write>(out: &mut O, err: &mut E, page: &[u8], complaint: &[u8]) -> bool
    ensures page { result ≡ true → Appends (O.contents out.old) (O.contents out.new) page.now }
    ensures silent { result ≡ true → err.new ≡ err.old }
{
    let printed = out.write_all(page).is_ok();
    if !printed {
        complain(err, complaint);
    }
    printed
}

// Prints what was made, so many of the page's first bytes; it complains where it can't, and where there is nothing since standard input can't be read.
// Answers whether all of a text was written.
pub fn show<O: Write, E: Write>(
    out: &mut O,
    err: &mut E,
    made: Result<usize, CantRead>,
    page: &[u8],
    unwritten: &[u8],
    unread: &[u8],
) -> bool
    ensures text { (n : ℕ) → made ≡ Ok n → result ≡ true → Appends (O.contents out.old) (O.contents out.new) (take n page.now) }
    ensures silent { result ≡ true → err.new ≡ err.old }
    ensures none { (why : CantRead) → made ≡ Err why → out.new ≡ out.old }
{
    match made {
        Ok(n) => print(out, err, &page[..n.min(page.len())], unwritten),
        Err(CantRead) => {
            complain(err, unread);
            false
        }
    }
}

// How many words the program was started with, its own name among them.
pub fn words_given(rt: &impl Env) -> usize {
    let mut byte = [0u8; 1];
    for i in 0..usize::MAX {
        if let Err(FillError::NotPresent) = rt.arg(i, &mut byte) {
            return i;
        }
    }
    usize::MAX
}

// Puts word i of the program at the buffer's front and answers its size: 0 where it is missing or has no room.
pub fn word_given(rt: &impl Env, i: usize, word: &mut [u8]) -> usize
    ensures { IsPrefixLen result word.new }
{
    rt.arg(i, word).unwrap_or(0)
}

// A number of a program's words as the library takes it: any over 255 is as unlawful as 255.
pub fn narrowed(number: u64) -> u8
    ensures { result ≡ min number 255 }
{
    number.min(255) as u8
}

// The hold limit of a program that takes nothing else: 16, or what its one argument says.
#[tactic(auto, unfolding(crate::specs::Words::limit_given))]
pub fn limit_given(words: usize, second: &[u8]) -> Option<u64>
    ensures { result ≡ limit_given words second.now }
{
    if words < 2 {
        return Some(16);
    }
    if 2 < words {
        return None;
    }
    text::number_in(second)
}

// The hold limit of a program that takes nothing else, from the words that it was started with.
pub fn only_limit(rt: &impl Env) -> Option<u64>
    ensures { (count : ℕ) × (second : List ℕ) × (result ≡ limit_given count second) }
{
    let mut word = io::buffer();
    let size = word_given(rt, 1, &mut word);
    limit_given(words_given(rt), &word[..size])
}
