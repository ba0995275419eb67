// The lines of what an input comes to and why, as bytes in a lent buffer. They are made on a page that has room for them, whatever the numbers, and
// then put into the buffer at once: so a buffer that is too short is not written.
#![tactic(auto)]

ghost use Rattle.std.specs.Prelude.{◌≡◌, length};
ghost use Rattle.text.specs.Pages.{grown};
ghost use Rattle.text.specs.Places.{front, moved_by, put_at};
ghost use Rattle.whylines.specs.Lines.{why_line, third_line, reason_lines};

use rules::Verdict;
use text::{Page, Place};
use why::Figures;
use witness::Reason;

// Enough for the judge's two lines and one more, however many digits the numbers have.
const PAGE: usize = 320;

// The line of a breach's figures.
fn put_figures<const N: usize>(page: &mut Page<N>, figures: Figures)
    ensures { page.new ≡ grown N page.old (why_line figures) }
{
    page.put_named(b"found ", figures.found);
    page.put_named(b" bound ", figures.bound);
    page.put(b"\n");
}

// The third line, which a breach has and nothing else.
fn put_third<const N: usize>(page: &mut Page<N>, verdict: Verdict, figures: Figures)
    ensures { page.new ≡ grown N page.old (third_line verdict figures) }
{
    if let Verdict::Breach(_) = verdict {
        put_figures(page, figures);
    }
}

// Writes the lines of what an input comes to and why to the front of a lent buffer, or nothing where they do not fit. The place that comes back says
// how many bytes they are, or that there was no room.
pub fn put_reason(buffer: &mut [u8], reason: Reason) -> Place
    ensures { (result ≡ moved_by (length buffer.old) front (length (reason_lines reason))) × (buffer.new ≡ put_at buffer.old front (reason_lines reason)) }
{
    let mut page = Page::<PAGE>::new();
    printed::add_ending(&mut page, reason.ending);
    put_third(&mut page, reason.ending.verdict, reason.figures);
    page.put_into(buffer, Place::front())
}
