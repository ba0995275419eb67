// The program of worst waits, `spurquote SLOT LIMIT`: it prints what demand 3 proves for a master in that slot under that hold limit. What is proved
// is answered by `quote`; here it is made into a line.

#![tactic(auto)]

ghost use Rattle.std.specs.Prelude.{◌≡◌, length};
ghost use Rattle.text.specs.Pages.{grown};
ghost use Rattle.spurquote.specs.Words.{asked_of};
ghost use Rattle.spurquote.specs.Pages.{worst_line, quote_line, Prints};

use quote::Worst;
use text::{Page, Place};

// Enough for the line, however many digits the numbers have.
const PAGE: usize = 256;

// ---- the words

// The slot and the hold limit that the program's words ask for, where so many were given, the program's own name among them.
#[tactic(auto, unfolding(crate::specs::Words::asked_of))]
fn asked_for(words: usize, slot: &[u8], limit: &[u8]) -> Option<(u64, u64)>
    ensures { result ≡ asked_of words slot.now limit.now }
{
    if words != 3 {
        return None;
    }
    text::number_in(slot).zip(text::number_in(limit))
}

// ---- the line

#[tactic(auto, using(text::proofs::PageLaws::grown_then), unfolding(crate::specs::Pages::worst_line))]
fn put_worst<const N: usize>(page: &mut Page<N>, slot: u64, limit: u64, worst: Worst)
    ensures { page.new ≡ grown N page.old (worst_line slot limit worst) }
{
    let cycles = u64::from(worst.cycles);
    page.put_named(b"slot ", slot);
    page.put_named(b" limit ", limit);
    page.put_named(b" others ", u64::from(worst.others));
    page.put_named(b" cycles ", cycles);
    page.put(b" seconds ");
    figures::add_seconds(page, cycles);
    page.put(b"\n");
}

fn put_quote<const N: usize>(page: &mut Page<N>, slot: u64, limit: u64)
    ensures { page.new ≡ grown N page.old (quote_line slot limit) }
{
    match quote::worst_wait(reading::narrowed(slot), reading::narrowed(limit)) {
        Ok(worst) => put_worst(page, slot, limit, worst),
        Err(refusal) => printed::add_refused(page, refusal.number()),
    }
}

// Makes the whole text for the program's words at the front of a buffer that has room for it: so many bytes, or none where the words aren't right.
fn tell(words: usize, slot: &[u8], limit: &[u8], buffer: &mut [u8]) -> Option<usize>
    requires { length buffer.old ≡ 256 }
    ensures { Prints (asked_of words slot.now limit.now) buffer.new result }
{
    let (slot, limit) = asked_for(words, slot, limit)?;
    let mut page: Page<PAGE> = Page::new();
    put_quote(&mut page, slot, limit);
    Some(page.put_into(buffer, Place::front()).at)
}

// ---- the program

fn say(rt: &HostRuntime, words: usize, slot: &[u8], limit: &[u8]) {
    let mut text = [0u8; PAGE];
    match tell(words, slot, limit, &mut text) {
        Some(n) => reading::print(
            &mut rt.stdout(),
            &mut rt.stderr(),
            &text[..n],
            b"spurquote: standard output can't be written\n",
        ),
        None => reading::complain(
            &mut rt.stderr(),
            b"spurquote: a slot and a hold limit are to be given, two numbers\n",
        ),
    };
}

fn main(rt: HostRuntime) {
    let mut slot = io::buffer();
    let mut limit = io::buffer();
    let slot_size = reading::word_given(&rt, 1, &mut slot);
    let limit_size = reading::word_given(&rt, 2, &mut limit);
    say(
        &rt,
        reading::words_given(&rt),
        &slot[..slot_size],
        &limit[..limit_size],
    );
}
