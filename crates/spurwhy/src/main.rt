// The program that says why: it judges the recording on standard input, with hold limit 16 or the one that its argument says, and prints the lines of
// the judging program and, behind a breach's, what the record had and what would have conformed. It reads, feeds and writes; what the input comes to is
// decided by `witness`, and what is printed by `whylines`.
#![tactic(auto)]

ghost use Rattle.std.specs.Prelude.{◌≡◌, length};
ghost use Rattle.witness.specs.State.{reason_in};
ghost use Rattle.whylines.specs.Lines.{reason_lines};
ghost use Rattle.spurwhy.specs.Pages.{explaining, Prints};

use basics::Refusal;
use reading::{CantRead, Machine};
use std::io::Stdin;
use text::Place;
use witness::Witness;

// ---- judging

// What the bytes of the input are fed to: the judge that keeps the record that broke a rule, whose text is the lines of its reason.
struct Explaining;

impl Machine for Explaining {
    type State = Witness;

    ghost feeder = { explaining };

    ghost says = { λ w. reason_lines (reason_in w) };

    fn feed(witness: Witness, piece: &[u8]) -> Result<Witness, Refusal> {
        witness::feed(witness, piece)
    }

    fn wants_more(witness: &Witness) -> bool {
        stream::is_going(witness.stream.stop)
    }

    fn put_text(witness: Witness, page: &mut [u8]) -> Place {
        whylines::put_reason(page, witness::finish(witness))
    }
}

// Judges what the reads bring, and makes the text of it.
// Stays: here and below stands what differs from the other programs that judge, whose `fresh` begins, how long the page is and what is complained of; the rest is `reading`'s.
fn explain_input(
    stdin: Stdin,
    limit: u64,
    buffer: &mut [u8],
    text: &mut [u8],
) -> Result<usize, CantRead>
    requires { length text.old ≡ 320 }
    ensures { Prints limit text.new result }
{
    let begun = witness::fresh(reading::narrowed(limit));
    reading::made::<Explaining>(stdin, begun, buffer, text)
}

// ---- the program

fn explain(rt: &HostRuntime, limit: u64) {
    let mut buffer = io::large_buffer();
    let mut text = [0u8; 320];
    let made = explain_input(rt.stdin(), limit, &mut buffer, &mut text);
    reading::show(
        &mut rt.stdout(),
        &mut rt.stderr(),
        made,
        &text,
        b"spurwhy: standard output can't be written\n",
        b"spurwhy: standard input can't be read\n",
    );
}

fn main(rt: HostRuntime) {
    match reading::only_limit(&rt) {
        Some(limit) => explain(&rt, limit),
        None => {
            reading::complain(
                &mut rt.stderr(),
                b"spurwhy: the hold limit is to be one number\n",
            );
        }
    }
}
