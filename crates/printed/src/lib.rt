// The lines that the judging program prints, as bytes (document 01, "Checked examples"). They are put on a page, and for a lent buffer on a page of their
// own that has room for them, whatever the numbers, which is put into the buffer at once: so a buffer that is too short is not written.
#![tactic(auto)]

ghost use Rattle.std.specs.Prelude.{◌≡◌, length};
ghost use Rattle.text.specs.Pages.{grown};
ghost use Rattle.text.specs.Places.{front, moved_by, put_at};
ghost use Rattle.printed.specs.Lines.{totals_line, refused_line, kind_letter, breach_line, verdict_line, lines_of};

use basics::Refusal;
use feeding::Ending;
use rules::{Broken, Tally, Verdict};
use text::{Page, Place};

// Enough for one line of those that come second, and for both lines, however many digits the numbers have.
const LINE: usize = 96;

const PAGE: usize = 256;

// ---- on a page

// The first line.
fn add_totals<const N: usize>(page: &mut Page<N>, totals: Tally, opened: bool)
    ensures { page.new ≡ grown N page.old (totals_line totals opened) }
{
    page.put_named(b"records ", totals.records as u64);
    page.put_named(b" span ", totals.span);
    page.put_named(b" starts ", totals.starts as u64);
    page.put_named(b" acks ", totals.acks as u64);
    page.put_named(b" aborted ", totals.aborted as u64);
    page.put_named(b" open ", basics::one_if(opened) as u64);
    page.put(b"\n");
}

// The letter of a kind of rule 8, nothing where a rule is of one kind.
fn add_kind<const N: usize>(page: &mut Page<N>, kind: u8)
    ensures { page.new ≡ grown N page.old (kind_letter kind) }
{
    match kind {
        1 => page.put(b"a"),
        2 => page.put(b"b"),
        3 => page.put(b"c"),
        _ => {}
    }
}

// A breach's line.
#[tactic(auto, using(text::proofs::PageLaws::grown_then), unfolding(crate::specs::Lines::breach_line))]
pub fn add_breach<const N: usize>(page: &mut Page<N>, broken: Broken)
    ensures { page.new ≡ grown N page.old (breach_line broken) }
{
    page.put_named(b"breach rule ", broken.rule as u64);
    add_kind(page, broken.kind);
    page.put_named(b" record ", broken.place as u64);
    page.put_named(b" span ", broken.span);
    page.put(b"\n");
}

// A refusal's line.
#[tactic(auto, using(text::proofs::PageLaws::grown_then), unfolding(crate::specs::Lines::refused_line))]
pub fn add_refused<const N: usize>(page: &mut Page<N>, number: u8)
    ensures { page.new ≡ grown N page.old (refused_line number) }
{
    page.put_named(b"refused ", number as u64);
    page.put(b"\n");
}

// The second line.
fn add_verdict<const N: usize>(page: &mut Page<N>, verdict: Verdict)
    ensures { page.new ≡ grown N page.old (verdict_line verdict) }
{
    match verdict {
        Verdict::Conforming => page.put(b"conforming\n"),
        Verdict::Breach(broken) => add_breach(page, broken),
        Verdict::OutOfBounds => add_refused(page, Refusal::Bounds.number()),
        Verdict::TooMany => add_refused(page, Refusal::TooMany.number()),
        Verdict::Torn => add_refused(page, Refusal::Length.number()),
    }
}

// The two lines of an ending.
#[tactic(auto, using(text::proofs::PageLaws::grown_then))]
pub fn add_ending<const N: usize>(page: &mut Page<N>, ending: Ending)
    ensures { page.new ≡ grown N page.old (lines_of ending) }
{
    add_totals(page, ending.tally, ending.opened);
    add_verdict(page, ending.verdict);
}

// ---- in a lent buffer

// Stays: the three lines of each `put_`: lent as a closure, the middle one would need a contract over a page that no caller sees, to save two lines.

// Puts a breach's line at the place, or nothing where it does not fit.
pub fn put_breach(buffer: &mut [u8], place: Place, broken: Broken) -> Place
    ensures { (result ≡ moved_by (length buffer.old) place (length (breach_line broken))) × (buffer.new ≡ put_at buffer.old place (breach_line broken)) }
{
    let mut breach: Page<LINE> = Page::new();
    add_breach(&mut breach, broken);
    breach.put_into(buffer, place)
}

// Puts a refusal's line at the place, or nothing where it does not fit.
pub fn put_refused(buffer: &mut [u8], place: Place, number: u8) -> Place
    ensures { (result ≡ moved_by (length buffer.old) place (length (refused_line number))) × (buffer.new ≡ put_at buffer.old place (refused_line number)) }
{
    let mut refusal: Page<LINE> = Page::new();
    add_refused(&mut refusal, number);
    refusal.put_into(buffer, place)
}

// Writes the two lines of an ending to the front of a lent buffer, or nothing where they do not fit. The place that comes back says how many bytes
// they are, or that there was no room.
pub fn put_ending(buffer: &mut [u8], ending: Ending) -> Place
    ensures { (result ≡ moved_by (length buffer.old) front (length (lines_of ending))) × (buffer.new ≡ put_at buffer.old front (lines_of ending)) }
{
    let mut page: Page<PAGE> = Page::new();
    add_ending(&mut page, ending);
    page.put_into(buffer, Place::front())
}
