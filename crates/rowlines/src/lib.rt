// A record of a recording as a row of text: where it stands and all its lines, as bytes in a lent buffer. The row is made on a page that has room for it,
// whatever the numbers, and then put into the buffer at once: so a buffer that is too short is not written.
#![tactic(auto)]

ghost use Rattle.std.specs.Prelude.{◌++◌, ◌≡◌, min, length};
ghost use Rattle.basics.specs.Lines.{one};
ghost use Rattle.io.specs.Digits.{last_digits};
ghost use Rattle.text.specs.Decimal.{decimal_of};
ghost use Rattle.text.specs.Pages.{grown};
ghost use Rattle.text.specs.Places.{moved_by, put_at};
ghost use Rattle.rowlines.specs.Rows.{standing, control_lines, transfer_lines, virtual_lines, row_line};

use figures::Base;
use record::Record;
use text::{Page, Place};

// Enough for a row, however many digits the numbers have.
const PAGE: usize = 512;

// A line's name, and 1 where it is active: one digit, so that nothing has to be spelled, twelve times in a row.
fn put_line<const N: usize>(page: &mut Page<N>, name: &[u8], active: bool)
    ensures { page.new ≡ grown N page.old (name.now ++ decimal_of (one active)) }
{
    page.put(name);
    page.put(&[b'0' + basics::one_if(active)]);
}

// The name of many lines, and their number in so many hex digits.
fn put_hex<const N: usize>(page: &mut Page<N>, name: &[u8], width: usize, n: u64)
    ensures { page.new ≡ grown N page.old (name.now ++ last_digits 16 (min width 64) n) }
{
    page.put(name);
    figures::add_digits(page, Base::Hex, width, n);
}

// Where the record stands.
fn put_standing<const N: usize>(page: &mut Page<N>, index: u32, cycle: u64, gap: u32)
    ensures { page.new ≡ grown N page.old (standing index cycle gap) }
{
    page.put_named(b"record ", index as u64);
    page.put_named(b" cycle ", cycle);
    page.put_named(b" gap ", gap as u64);
    page.put(b" ns ");
    figures::add_nanoseconds(page, cycle);
}

fn put_control<const N: usize>(page: &mut Page<N>, lines: Record)
    ensures { page.new ≡ grown N page.old (control_lines lines) }
{
    put_line(page, b" reset ", lines.reset);
    put_line(page, b" rqst ", lines.rqst);
    page.put_named(b" arb ", lines.arb as u64);
    put_line(page, b" start ", lines.start);
    put_line(page, b" ack ", lines.ack);
}

fn put_transfer<const N: usize>(page: &mut Page<N>, lines: Record)
    ensures { page.new ≡ grown N page.old (transfer_lines lines) }
{
    put_line(page, b" tm1 ", lines.tm1);
    put_line(page, b" tm0 ", lines.tm0);
    put_line(page, b" sp ", lines.sp);
    put_line(page, b" spv ", lines.spv);
    put_hex(page, b" ad ", 8, lines.ad as u64);
}

fn put_virtual<const N: usize>(page: &mut Page<N>, lines: Record)
    ensures { page.new ≡ grown N page.old (virtual_lines lines) }
{
    put_line(page, b" vtm1 ", lines.vtm1);
    put_line(page, b" vtm0 ", lines.vtm0);
    put_line(page, b" vack ", lines.vack);
    put_line(page, b" vsack ", lines.vsack);
    put_hex(page, b" vad ", 9, lines.vad);
}

// Puts the row of a record at the place, or nothing where it does not fit: the record's index, the cycle in which it stands, the gap before it, its lines
// and its spare bits.
pub fn put_row(
    buffer: &mut [u8],
    place: Place,
    index: u32,
    cycle: u64,
    gap: u32,
    lines: Record,
    spare: u16,
) -> Place
    ensures { (result ≡ moved_by (length buffer.old) place (length (row_line index cycle gap lines spare))) × (buffer.new ≡ put_at buffer.old place (row_line index cycle gap lines spare)) }
{
    let mut page = Page::<PAGE>::new();
    put_standing(&mut page, index, cycle, gap);
    put_control(&mut page, lines);
    put_transfer(&mut page, lines);
    put_virtual(&mut page, lines);
    page.put_named(b" spare ", spare as u64);
    page.put(b"\n");
    page.put_into(buffer, place)
}
