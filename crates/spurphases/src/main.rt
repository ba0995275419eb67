// The program of boot phases (document 02, wish 1): it looks for the marks that its words name in the recording on standard input, and prints the
// report. It reads, feeds and writes; what the input comes to is decided by `phases`, and what is printed by `phaselines`.

#![tactic(auto)]

ghost use Rattle.std.specs.Prelude.{◌≡◌, ◌+◌, ◌^◌, ◌≤◌, ◌<◌, length};
ghost use Rattle.marks.specs.State.{report_of};
ghost use Rattle.phaselines.specs.Lines.{report_lines};
ghost use Rattle.spurphases.specs.Words.{slash_in, mark_of, mark_in, with_mark, count_of, named_as, Given};
ghost use Rattle.spurphases.specs.Pages.{searching, Prints};

use basics::Refusal;
use marks::{Mark, Marks, Phases};
use reading::{CantRead, Machine};
use std::env::Env;
use std::io::Stdin;
use text::Place;

// ---- the words

// Where a word's first slash stands, or its length where it has none.
fn slash_in(word: &[u8]) -> usize
    ensures { (result ≡ slash_in word.now) × (result ≤ length word.now) }
{
    for (at, byte) in word.iter().enumerate() {
        if *byte == b'/' {
            return at;
        }
    }
    word.len()
}

// What two numbers say as a mark.
fn mark_of(slot: Option<u64>, number: Option<u64>) -> Option<Mark>
    ensures { result ≡ mark_of slot number }
{
    let (slot, number) = (slot?, number?);
    Some(Mark {
        slot: reading::narrowed(slot),
        number: reading::narrowed(number),
    })
}

// What a word says as a mark: a slot and an interrupt number.
fn mark_in(word: &[u8]) -> Option<Mark>
    ensures { result ≡ mark_in word.now }
{
    let at = slash_in(word);
    if at == word.len() {
        return None;
    }
    let slot = text::number_in(&word[..at]);
    let number = text::number_in(&word[at + 1..]);
    mark_of(slot, number)
}

// One mark more. Past the 32nd it is counted, so that it is refused, and not kept.
fn with_mark(mut marks: Marks, mark: Mark) -> Marks
    requires { marks.count + 1 < 2 ^ 64 }
    ensures { result ≡ with_mark marks mark }
{
    if marks.count < 32 {
        marks.marks[marks.count] = mark;
    }
    marks.count += 1;
    marks
}

// The marks with that of a word, where all of them are marks.
fn name(named: Option<Marks>, word: &[u8]) -> Option<Marks>
    requires { count_of named + 1 < 2 ^ 64 }
    ensures { result ≡ named_as named (mark_in word.now) }
{
    let mark = mark_in(word)?;
    Some(with_mark(named?, mark))
}

// The marks that the program's words name, behind its own name and the hold limit.
fn marks_given(rt: &impl Env, words: usize) -> Option<Marks>
    ensures { Given words result }
{
    let mut word = io::buffer();
    // Stays: `Marks::default()` was tried, and that it is `no_marks` didn't close: of its array the clause says that each mark is a default (`AllOfLen`).
    let unnamed = Mark { slot: 0, number: 0 };
    let mut named = Some(Marks {
        marks: [unnamed; 32],
        count: 0,
    });
    for next in 2..words {
        let size = reading::word_given(rt, next, &mut word);
        named = name(named, &word[..size]);
    }
    named
}

// ---- the report

// What the bytes of the input are fed to: the search for the marks, whose text is the lines of its report.
struct Searching;

impl Machine for Searching {
    type State = Phases;

    ghost feeder = { searching };

    ghost says = { λ p. report_lines (report_of p) };

    fn feed(phases: Phases, piece: &[u8]) -> Result<Phases, Refusal> {
        phases::feed(phases, piece)
    }

    fn wants_more(phases: &Phases) -> bool {
        phases::is_under_way(*phases)
    }

    fn put_text(phases: Phases, page: &mut [u8]) -> Place {
        phaselines::put_report(page, phases::finish(phases))
    }
}

// Looks for the marks in what the reads bring, and makes the text of the report.
fn report_input(
    stdin: Stdin,
    limit: u64,
    marks: Marks,
    buffer: &mut [u8],
    text: &mut [u8],
) -> Result<usize, CantRead>
    requires { length text.old ≡ 4096 }
    ensures { Prints limit marks text.new result }
{
    let begun = phases::fresh(reading::narrowed(limit), marks);
    reading::made::<Searching>(stdin, begun, buffer, text)
}

// ---- the program

fn report(rt: &HostRuntime, limit: u64, marks: Marks) {
    let mut buffer = io::large_buffer();
    let mut text = [0u8; 4096];
    let made = report_input(rt.stdin(), limit, marks, &mut buffer, &mut text);
    reading::show(
        &mut rt.stdout(),
        &mut rt.stderr(),
        made,
        &text,
        b"spurphases: standard output can't be written\n",
        b"spurphases: standard input can't be read\n",
    );
}

fn look(rt: &HostRuntime, limit: u64, words: usize) {
    match marks_given(rt, words) {
        Some(marks) => report(rt, limit, marks),
        None => {
            reading::complain(
                &mut rt.stderr(),
                b"spurphases: a mark is to be a slot and an interrupt number, as 3/4\n",
            );
        }
    }
}

fn main(rt: HostRuntime) {
    let mut word = io::buffer();
    let size = reading::word_given(&rt, 1, &mut word);
    match text::number_in(&word[..size]) {
        Some(limit) => look(&rt, limit, reading::words_given(&rt)),
        None => {
            reading::complain(
                &mut rt.stderr(),
                b"spurphases: the hold limit is to be a number\n",
            );
        }
    }
}
