// The line of a fleet's figures, as bytes in a lent buffer. It is made on a page that has room for it, whatever the numbers, and then put into the
// buffer at once: so a buffer that is too short is not written.
#![tactic(auto)]

ghost use Rattle.std.specs.Prelude.{◌≡◌, length};
ghost use Rattle.text.specs.Pages.{grown};
ghost use Rattle.text.specs.Places.{moved_by, put_at};
ghost use Rattle.fleetlines.specs.Lines.{figures_text, rest_text, summary_line};

use fleet::Summary;
use text::{Page, Place};

// Enough for the line, however many digits the numbers have.
const LINE: usize = 192;

// The figures behind the count.
fn put_figures<const N: usize>(page: &mut Page<N>, s: Summary)
    ensures { page.new ≡ grown N page.old (figures_text s) }
{
    page.put_named(b" least ", s.least);
    page.put_named(b" median ", s.median);
    page.put_named(b" greatest ", s.greatest);
    page.put_named(b" mean ", s.mean);
    page.put_named(b" remainder ", s.remainder);
}

// Of no numbers there is nothing to say but their count.
fn put_rest<const N: usize>(page: &mut Page<N>, s: Summary)
    ensures { page.new ≡ grown N page.old (rest_text s) }
{
    let none = s.count == 0;
    if !none {
        put_figures(page, s);
    }
}

// Puts the line at the place, or nothing where it does not fit.
pub fn put_summary(buffer: &mut [u8], place: Place, s: Summary) -> Place
    ensures { (result ≡ moved_by (length buffer.old) place (length (summary_line s))) × (buffer.new ≡ put_at buffer.old place (summary_line s)) }
{
    let mut page = Page::<LINE>::new();
    page.put_named(b"count ", s.count as u64);
    put_rest(&mut page, s);
    page.put(b"\n");
    page.put_into(buffer, place)
}
