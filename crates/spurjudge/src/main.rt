// The judging program (document 01, "Checked examples"): it judges the recording on standard input, with hold limit 16 or the one that its argument
// says, and prints two lines, the totals and the verdict. It reads, feeds and writes; what the input comes to is decided by `stream`, and
// what is printed by `printed`.
#![tactic(auto)]

ghost use Rattle.std.specs.Prelude.{◌≡◌, length};
ghost use Rattle.feeding.specs.State.{finish_of};
ghost use Rattle.printed.specs.Lines.{lines_of};
ghost use Rattle.spurjudge.specs.Pages.{judging, Prints};

use basics::Refusal;
use feeding::Stream;
use reading::{CantRead, Machine};
use std::io::Stdin;
use text::Place;

// ---- judging

// What the bytes of the input are fed to: the judge, whose text is the two lines of its ending.
struct Judging;

impl Machine for Judging {
    type State = Stream;

    ghost feeder = { judging };

    ghost says = { λ s. lines_of (finish_of s) };

    fn feed(stream: Stream, piece: &[u8]) -> Result<Stream, Refusal> {
        stream::feed(stream, piece)
    }

    fn wants_more(stream: &Stream) -> bool {
        stream::is_going(stream.stop)
    }

    fn put_text(stream: Stream, page: &mut [u8]) -> Place {
        printed::put_ending(page, stream::finish(stream))
    }
}

// Judges what the reads bring, and makes the text of it.
// Stays: here and below stands what differs from the other programs that judge, whose `fresh` begins, how long the page is and what is complained of; the rest is `reading`'s.
fn judge_input(
    stdin: Stdin,
    limit: u64,
    buffer: &mut [u8],
    text: &mut [u8],
) -> Result<usize, CantRead>
    requires { length text.old ≡ 256 }
    ensures { Prints limit text.new result }
{
    let begun = stream::fresh(reading::narrowed(limit));
    reading::made::<Judging>(stdin, begun, buffer, text)
}

// ---- the program

fn judge(rt: &HostRuntime, limit: u64) {
    let mut buffer = io::large_buffer();
    let mut text = [0u8; 256];
    let made = judge_input(rt.stdin(), limit, &mut buffer, &mut text);
    reading::show(
        &mut rt.stdout(),
        &mut rt.stderr(),
        made,
        &text,
        b"spurjudge: standard output can't be written\n",
        b"spurjudge: standard input can't be read\n",
    );
}

fn main(rt: HostRuntime) {
    match reading::only_limit(&rt) {
        Some(limit) => judge(&rt, limit),
        None => {
            reading::complain(
                &mut rt.stderr(),
                b"spurjudge: the hold limit is to be one number\n",
            );
        }
    }
}
