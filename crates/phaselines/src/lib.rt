// The lines of a report of boot phases (document 02, wish 1), as bytes in a lent buffer. They are put on a page that has room for them, whatever the
// numbers, which is put into the buffer at once: so a buffer that is too short is not written.
#![tactic(auto)]

ghost use Rattle.std.specs.Prelude.{◌≡◌, min, length};
ghost use Rattle.text.specs.Pages.{grown};
ghost use Rattle.text.specs.Places.{front, moved_by, put_at};
ghost use Rattle.phaselines.specs.Lines.{diff_part, mark_line, mark_lines, absent_line, why_line, report_lines};

use basics::Refusal;
use marks::{Report, Why};
use text::{Page, Place};

// Enough for 34 lines, however many digits the numbers have.
const PAGE: usize = 4096;

// The difference to the mark before, which the first does not have.
fn add_diff<const N: usize>(page: &mut Page<N>, k: usize, diff: u64)
    ensures { page.new ≡ grown N page.old (diff_part k diff) }
{
    let first = k == 0;
    if first {
        return;
    }
    page.put_named(b" diff ", diff);
}

// A mark's line.
#[tactic(auto, using(text::proofs::PageLaws::grown_then), unfolding(crate::specs::Lines::mark_line))]
fn add_mark<const N: usize>(page: &mut Page<N>, k: usize, span: u64, diff: u64)
    ensures { page.new ≡ grown N page.old (mark_line k span diff) }
{
    page.put_named(b"mark ", k as u64);
    page.put_named(b" span ", span);
    add_diff(page, k, diff);
    page.put(b"\n");
}

// A line for each mark: a report has room for 32.
fn add_marks<const N: usize>(page: &mut Page<N>, report: Report)
    ensures { page.new ≡ grown N page.old (mark_lines report (min report.found 32)) }
{
    for (k, (span, diff)) in report
        .spans
        .iter()
        .zip(&report.diffs)
        .enumerate()
        .take(report.found)
    {
        add_mark(page, k, *span, *diff);
    }
}

// The mark that is absent.
#[tactic(auto, using(text::proofs::PageLaws::grown_then), unfolding(crate::specs::Lines::absent_line))]
fn add_absent<const N: usize>(page: &mut Page<N>, mark: usize)
    ensures { page.new ≡ grown N page.old (absent_line mark) }
{
    page.put_named(b"refused ", 10);
    page.put_named(b" place ", mark as u64);
    page.put(b"\n");
}

// The last line.
fn add_why<const N: usize>(page: &mut Page<N>, why: Why)
    ensures { page.new ≡ grown N page.old (why_line why) }
{
    match why {
        Why::Complete => page.put(b"complete\n"),
        Why::AtBreach(broken) => printed::add_breach(page, broken),
        Why::Torn => printed::add_refused(page, Refusal::Length.number()),
        Why::TooMany => printed::add_refused(page, Refusal::TooMany.number()),
        Why::Absent(mark) => add_absent(page, mark),
        Why::OutOfBounds => printed::add_refused(page, Refusal::Bounds.number()),
    }
}

// All lines of a report.
#[tactic(auto, using(text::proofs::PageLaws::grown_then), unfolding(crate::specs::Lines::records_line))]
fn add_report<const N: usize>(page: &mut Page<N>, report: Report)
    ensures { page.new ≡ grown N page.old (report_lines report) }
{
    add_marks(page, report);
    page.put_named(b"records ", report.records as u64);
    page.put(b"\n");
    add_why(page, report.why);
}

// Writes a report's lines to the front of a lent buffer, or nothing where they do not fit. The place that comes back says how many bytes they are, or
// that there was no room.
// Stays: three lines, as each `put_` of `printed` has them and for its reason.
pub fn put_report(buffer: &mut [u8], report: Report) -> Place
    ensures { (result ≡ moved_by (length buffer.old) front (length (report_lines report))) × (buffer.new ≡ put_at buffer.old front (report_lines report)) }
{
    let mut page: Page<PAGE> = Page::new();
    add_report(&mut page, report);
    page.put_into(buffer, Place::front())
}
