// The program that shows the records of a recording, which is on standard input, from one place to another: as rows, or as a Value Change Dump. It reads,
// shows and writes; what is shown of a piece is decided by `show_piece`, and what is wrong at the end by `end_found`.
#![tactic(auto)]

ghost use Rattle.std.specs.Prelude.{◌≡◌, true, ◌*◌, ◌≤◌, ◌<◌, length, take};
ghost use Rattle.io.specs.Counts.{IsPrefixLen};
ghost use Rattle.printed.specs.Adding.{Adds};
ghost use Rattle.rules.specs.Run.{taken_in};
ghost use Rattle.walk.specs.Walks.{walk_bounds, gap_before, onward};
ghost use Rattle.spurshow.specs.Shown.{goes, head_of, text_of, shown, walked_over, records_of, piece_of, ending_of, last_of, range_of, request_of};

use record::Record;
use rules::Judge;
use std::env::Env;
use std::io::Stdin;
use text::Place;
use walk::{Walk, Walked};

// Whether a dump is asked for, and the places of the first and the last record that are to be shown, counted from 0.
#[derive(Clone, Copy)]
struct Asked {
    dump: bool,
    from: u64,
    to: u64,
}

// ---- what is shown

// Whether more records are to be walked: record TO isn't yet, nor are 2^30.
fn is_going(asked: Asked, walk: Walk) -> bool
    ensures { result ≡ goes asked walk }
{
    (walk.place as u64 <= asked.to) & (walk.place < Judge::MOST_RECORDS)
}

// A dump's head, before the first record shown.
fn put_head(text: &mut [u8], place: Place, first: bool) -> Place
    ensures { Adds text.old place text.new result (head_of first) }
{
    if first {
        return vcdlines::put_head(text, place);
    }
    place
}

// Stays: what is asked and the walk go as two values, and `walk_bounds` and `goes` in three clauses, since `text_of`, `shown` and `walked_over`
// (specs/Shown) take them so, and a walk is the caller's own of crate `walk`, whose `step` refuses one out of bounds by 5.
// A walk that goes on is in its bounds and has room for a record: its step isn't refused.
fn step_on(asked: Asked, walk: Walk, lines: Record) -> Walked
    requires { (walk_bounds walk ≡ true) × (goes asked walk ≡ true) }
    ensures { result ≡ record { walk = onward walk lines; gap = gap_before walk lines.stamp } }
{
    walk::step(walk, lines).unwrap()
}

// What is shown of a record: nothing before FROM.
fn put_record(
    text: &mut [u8],
    place: Place,
    asked: Asked,
    walk: Walk,
    lines: Record,
    spare: u16,
) -> Place
    requires { (walk_bounds walk ≡ true) × (goes asked walk ≡ true) }
    ensures { Adds text.old place text.new result (text_of asked walk (record { lines = lines; spare = spare })) }
{
    if (walk.place as u64) < asked.from {
        return place;
    }
    let walked = step_on(asked, walk, lines);
    let next = walked.walk;
    if asked.dump {
        let first = walk.place as u64 == asked.from;
        let head = put_head(text, place, first);
        return vcdlines::put_change(
            text,
            head,
            first,
            walk.cycle,
            walk.last,
            walked.gap as u64,
            next.cycle,
            lines,
        );
    }
    rowlines::put_row(
        text, place, walk.place, next.cycle, walked.gap, lines, spare,
    )
}

// A walk, and the place behind the text of what was walked.
// Stays: a buffer with a place handed on (rowlines::put_row and vcdlines::put_change put into a lent buffer); a Page of 65,536 bytes would be moved by value.
#[derive(Clone, Copy)]
struct Part {
    walk: Walk,
    place: Place,
}

// One record more, which stands in these sixteen bytes.
fn show_record(text: &mut [u8], place: Place, asked: Asked, walk: Walk, part: &[u8]) -> Part
    requires { (walk_bounds walk ≡ true) × ((goes asked walk ≡ true) × (length part.now ≡ 16)) }
    ensures { (result.walk ≡ onward walk (taken_in part.now).lines) × Adds text.old place text.new result.place (text_of asked walk (taken_in part.now)) }
{
    let lines = record::lines_in(part);
    let spare = record::spare_in(part);
    let place = put_record(text, place, asked, walk, lines, spare);
    let walk = step_on(asked, walk, lines).walk;
    Part { walk, place }
}

// The text of a piece's whole records, at the front of the lent buffer, from a walk on. The place says how many bytes they are.
fn show_piece(asked: Asked, walk: Walk, piece: &[u8], text: &mut [u8]) -> Part
    requires { (walk_bounds walk ≡ true) × ((length piece.now ≤ 1024) × (length text.old ≡ 65536)) }
    ensures walk_value { (result.walk ≡ walked_over asked walk (records_of piece.now)) × (take result.place.at text.new ≡ shown asked walk (records_of piece.now)) }
    ensures walk_value_2 { (walk_bounds result.walk ≡ true) × IsPrefixLen result.place.at text.new }
{
    let n = piece.len() / 16;
    let mut state = walk;
    let mut place = Place::front();
    for i in 0..n {
        if !is_going(asked, state) {
            break;
        }
        let at = i * 16;
        let end = at + 16;
        let next = show_record(text, place, asked, state, &piece[at..end]);
        state = next.walk;
        place = next.place;
    }
    Part { walk: state, place }
}

// ---- the end

// What is wrong at the end of the input, or where it is read no further.
#[derive(Clone, Copy)]
enum Amiss {
    NoRecord,
    TooMany,
    Torn,
    CantRead,
}

// From the records walked before the last piece, the piece's size, and the records walked after it.
fn end_found(asked: Asked, earlier: u32, size: usize, after: u32) -> Result<(), Amiss>
    ensures { result ≡ ending_of asked earlier size after }
{
    if after as u64 <= asked.from {
        return Err(Amiss::NoRecord);
    }
    if asked.to < after as u64 {
        return Ok(());
    }
    if (Judge::MOST_RECORDS as u64) < earlier as u64 + (size / 16) as u64 {
        return Err(Amiss::TooMany);
    }
    if size % 16 == 0 {
        return Ok(());
    }
    Err(Amiss::Torn)
}

// The end of a dump at the front of the lent buffer: the cycle behind that of the last record shown, where one is.
fn put_last(asked: Asked, walk: Walk, text: &mut [u8]) -> Place
    requires { length text.old ≡ 65536 }
    ensures text_after { take result.at text.new ≡ last_of asked walk }
    ensures prefix_len { IsPrefixLen result.at text.new }
{
    let start = Place::front();
    if asked.dump & (asked.from < walk.place as u64) {
        return vcdlines::put_end(text, start, walk.cycle);
    }
    start
}

// ---- the words

fn ranged(dump: bool, from: Option<u64>, to: Option<u64>) -> Option<Asked>
    ensures { result ≡ range_of dump from to }
{
    match (from, to) {
        (Some(from), Some(to)) => Some(Asked { dump, from, to }),
        _ => None,
    }
}

// From whether the first word is `rows`, whether it is `vcd`, and the numbers behind it.
fn requested(rows: bool, vcd: bool, from: Option<u64>, to: Option<u64>) -> Option<Asked>
    ensures { result ≡ request_of rows vcd from to }
{
    if rows {
        return ranged(false, from, to);
    }
    if vcd {
        return ranged(true, from, to);
    }
    None
}

// Word i of the program as a number.
fn number_given(rt: &impl Env, i: usize) -> Option<u64> {
    let mut word = io::buffer();
    let size = reading::word_given(rt, i, &mut word);
    figures::figure_in(&word[..size])
}

// What the words ask for, where they are clear.
fn request_given(rt: &impl Env) -> Option<Asked> {
    let mut word = io::buffer();
    let size = reading::word_given(rt, 1, &mut word);
    let rows = check::same(&word[..size], b"rows");
    let vcd = check::same(&word[..size], b"vcd");
    let from = number_given(rt, 2);
    let to = number_given(rt, 3);
    let three = reading::words_given(rt) == 4;
    requested(rows & three, vcd & three, from, to)
}

// ---- the program

// A piece is 64 records at most, and every piece but the input's last is whole records: their text has room in the text buffer.
const PIECE: usize = 1024;

// As many pieces as 2^30 records have, and one more.
const TURNS: u32 = 16777217;

// How many bytes to read next, so many records having been walked: a piece, and none behind record TO.
#[tactic(auto, unfolding(crate::specs::Shown::piece_of))]
fn piece_size(asked: Asked, place: u32) -> usize
    ensures value { result ≡ piece_of asked place }
    ensures upper_bound { result ≤ 1024 }
{
    let next = place as u64;
    if asked.to < next {
        return 0;
    }
    let behind = asked.to - next;
    if 63 <= behind {
        return PIECE;
    }
    (behind as usize + 1) * 16
}

// Reads so many bytes to the buffer's front, or what the input has left, and answers how many came.
fn read_piece(buffer: &mut [u8], most: usize) -> usize
    requires { most ≤ length buffer.old }
    ensures { IsPrefixLen result buffer.new }
{
    io::read_full(reading::STDIN, &mut buffer[..most])
}

fn print(rt: &HostRuntime, page: &[u8]) {
    reading::print(
        &mut rt.stdout(),
        &mut rt.stderr(),
        page,
        b"spurshow: standard output can't be written\n",
    );
}

// At the end of the input, whether the last read came to it: where it failed instead, the next fails too.
fn checked(
    stdin: Stdin,
    end: Result<(), Amiss>,
    short: bool,
    buffer: &mut [u8],
) -> Result<(), Amiss> {
    if short && reading::read_once(stdin, buffer).is_err() {
        return Err(Amiss::CantRead);
    }
    end
}

// Shows the records of standard input piece by piece.
fn show(rt: &HostRuntime, asked: Asked) -> Result<(), Amiss> {
    let mut piece = [0; PIECE];
    let mut text = io::large_buffer();
    let mut walk = Walk::fresh();
    'pieces: for _ in 0..TURNS {
        let earlier = walk.place;
        let most = piece_size(asked, earlier);
        let size = read_piece(&mut piece, most);
        let part = show_piece(asked, walk, &piece[..size], &mut text);
        print(rt, &text[..part.place.at]);
        walk = part.walk;
        let short = size < most;
        let over = asked.to < walk.place as u64;
        if short | over | (earlier == Judge::MOST_RECORDS) {
            let last = put_last(asked, walk, &mut text);
            print(rt, &text[..last.at]);
            let end = end_found(asked, earlier, size, walk.place);
            return checked(rt.stdin(), end, short & !over, &mut piece);
        }
    }
    Err(Amiss::TooMany)
}

fn complain_of(rt: &HostRuntime, amiss: Amiss) {
    match amiss {
        Amiss::NoRecord => complain(rt, b"spurshow: no record is in the range\n"),
        Amiss::TooMany => complain(rt, b"spurshow: more than 2^30 records\n"),
        Amiss::Torn => complain(rt, b"spurshow: the recording ends within a record\n"),
        Amiss::CantRead => complain(rt, b"spurshow: standard input can't be read\n"),
    }
}

fn complain(rt: &HostRuntime, line: &[u8]) {
    reading::complain(&mut rt.stderr(), line);
}

fn main(rt: HostRuntime) {
    match request_given(&rt) {
        Some(asked) => {
            if let Err(amiss) = show(&rt, asked) {
                complain_of(&rt, amiss);
            }
        }
        None => complain(
            &rt,
            b"spurshow: it takes rows or vcd, and the places of the first and the last record as numbers\n",
        ),
    }
}
