// The lines of what an input comes to and who used the bus (document 02, wish 3), as bytes in a lent buffer. They are made on a page that has room for
// them, whatever the numbers, and then put into the buffer at once: so a buffer that is too short is not written.
#![tactic(auto)]

ghost use Rattle.std.specs.Prelude.{◌≡◌, length};
ghost use Rattle.text.specs.Pages.{grown};
ghost use Rattle.text.specs.Places.{front, moved_by, put_at};
ghost use Rattle.accountlines.specs.Lines.{slot_line, slot_lines, closing_lines};

use entries::Entry;
use text::{Page, Place};
use usage::Closing;

// Enough for the judge's two lines and sixteen more, however many digits the numbers have.
const PAGE: usize = 1536;

// A slot's line.
fn put_slot<const N: usize>(page: &mut Page<N>, slot: usize, entry: Entry)
    ensures { page.new ≡ grown N page.old (slot_line slot entry) }
{
    page.put_named(b"slot ", slot as u64);
    page.put_named(b" starts ", entry.starts as u64);
    page.put_named(b" busy ", entry.busy);
    page.put(b"\n");
}

// A line for each slot. That there are sixteen follows from the type, and is said for the caller, who has them in a struct.
fn put_slots<const N: usize>(page: &mut Page<N>, entries: [Entry; 16])
    ensures adds { page.new ≡ grown N page.old (slot_lines 0 entries) }
    ensures entries_len { length entries ≡ 16 }
{
    for (slot, entry) in entries.iter().enumerate() {
        put_slot(page, slot, *entry);
    }
}

// Writes the lines of what an input comes to and of its account to the front of a lent buffer, or nothing where they do not fit. The place that comes
// back says how many bytes they are, or that there was no room.
pub fn put_closing(buffer: &mut [u8], closing: Closing) -> Place
    ensures { (result ≡ moved_by (length buffer.old) front (length (closing_lines closing))) × (buffer.new ≡ put_at buffer.old front (closing_lines closing)) }
{
    let mut page = Page::<PAGE>::new();
    printed::add_ending(&mut page, closing.ending);
    put_slots(&mut page, closing.entries);
    page.put_into(buffer, Place::front())
}
