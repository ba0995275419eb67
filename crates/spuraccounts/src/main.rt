// The program of accounts (document 02, wish 3, "Who used the bus"): it judges the recording on standard input, with hold limit 16 or the one that its
// argument says, and prints the lines of the judging program and then a line for each slot. It reads, feeds and writes; what the input comes to is
// decided by `accounts`, and what is printed by `accountlines`.
#![tactic(auto)]

ghost use Rattle.std.specs.Prelude.{◌≡◌, length};
ghost use Rattle.usage.specs.Pieces.{closing_of};
ghost use Rattle.accountlines.specs.Lines.{closing_lines};
ghost use Rattle.spuraccounts.specs.Pages.{accounting, Prints};

use basics::Refusal;
use reading::{CantRead, Machine};
use std::io::Stdin;
use text::Place;
use usage::Ledger;

// ---- the account

// What the bytes of the input are fed to: the judge that keeps an account, whose text is the lines of its closing.
struct Accounting;

impl Machine for Accounting {
    type State = Ledger;

    ghost feeder = { accounting };

    ghost says = { λ l. closing_lines (closing_of l) };

    fn feed(ledger: Ledger, piece: &[u8]) -> Result<Ledger, Refusal> {
        accounts::feed(ledger, piece)
    }

    fn wants_more(ledger: &Ledger) -> bool {
        stream::is_going(ledger.stream.stop)
    }

    fn put_text(ledger: Ledger, page: &mut [u8]) -> Place {
        accountlines::put_closing(page, accounts::finish(ledger))
    }
}

// Judges what the reads bring, with an account, and makes the text of it.
// Stays: here and below stands what differs from the other programs that judge, whose `fresh` begins, how long the page is and what is complained of; the rest is `reading`'s.
fn account_input(
    stdin: Stdin,
    limit: u64,
    buffer: &mut [u8],
    text: &mut [u8],
) -> Result<usize, CantRead>
    requires { length text.old ≡ 1536 }
    ensures { Prints limit text.new result }
{
    let begun = accounts::fresh(reading::narrowed(limit));
    reading::made::<Accounting>(stdin, begun, buffer, text)
}

// ---- the program

fn account(rt: &HostRuntime, limit: u64) {
    let mut buffer = io::large_buffer();
    let mut text = [0u8; 1536];
    let made = account_input(rt.stdin(), limit, &mut buffer, &mut text);
    reading::show(
        &mut rt.stdout(),
        &mut rt.stderr(),
        made,
        &text,
        b"spuraccounts: standard output can't be written\n",
        b"spuraccounts: standard input can't be read\n",
    );
}

fn main(rt: HostRuntime) {
    match reading::only_limit(&rt) {
        Some(limit) => account(&rt, limit),
        None => {
            reading::complain(
                &mut rt.stderr(),
                b"spuraccounts: the hold limit is to be one number\n",
            );
        }
    }
}
