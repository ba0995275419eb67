// Figures of the analyst's desk: numbers of bus cycles read from words, and times and digits put into lent buffers. A bus cycle is 100 ns, so cycles
// are seconds with seven digits behind the point, and nothing is ever rounded.
#![tactic(auto)]

ghost use Rattle.std.specs.Prelude.{◌≡◌, true, ◌-◌, ◌≤◌, ◌<◌, min, length, drop};
ghost use Rattle.io.specs.Digits.{hex_digit_ascii, last_digits};
ghost use Rattle.text.specs.Numbers.{all_digits, value_of};
ghost use Rattle.text.specs.Pages.{grown};
ghost use Rattle.text.specs.Places.{moved_by, put_at};
ghost use Rattle.figures.specs.Figures.{figure_of};
ghost use Rattle.figures.specs.Times.{base_of, seconds_of, nanoseconds_of};

use text::{Page, Place};

// ---- reading

// The number that up to nineteen digits spell, which is below 10^19 and so has room in 64 bits.
// Stays: beside `text::number_in`, whose walk caps the number and ends at a byte that is no digit: here neither is needed, and no number is lost.
fn value_in(word: &[u8]) -> u64
    requires { (all_digits word.now ≡ true) × (length word.now ≤ 19) }
    ensures { result ≡ value_of word.now }
{
    let mut value = 0;
    for byte in word {
        value = value * 10 + (byte - b'0') as u64;
    }
    value
}

// What a word says as an exact number: unlike `text::number_in`, whose numbers end at 2^32, and which says here whether the word is a number at all.
pub fn figure_in(word: &[u8]) -> Option<u64>
    ensures { result ≡ figure_of word.now }
{
    let too_long = word.len() > 19;
    if too_long {
        return None;
    }
    text::number_in(word)?;
    Some(value_in(word))
}

// ---- digits

// The bases in which digits are put.
#[derive(Clone, Copy)]
pub enum Base {
    Binary = 2,
    Decimal = 10,
    Hex = 16,
}

fn base_of(base: Base) -> u64
    ensures { (result ≡ base_of base) × (1 < result) × (result ≤ 16) }
{
    base as u64
}

fn glyph_of(d: u64) -> u8
    requires { d < 16 }
    ensures { result ≡ hex_digit_ascii d }
{
    if d < 10 { b'0' + d as u8 } else { 87 + d as u8 }
}

// Spells the last digits of n at the end of 64 bytes, the last one first.
// Stays: beside text's `spell`, which ends with the number and never begins with a zero: here the width says how many, in any base.
fn spell(glyphs: &mut [u8], base: u64, first: usize, n: u64)
    requires { (length glyphs.old ≡ 64) × (1 < base) × (base ≤ 16) × (first ≤ 64) }
    ensures { drop first glyphs.new ≡ last_digits base (64 - first) n }
{
    let mut rest = n;
    // Stays: an index, tried as `glyphs[first..].iter_mut().rev()`: an invariant has no name there for the glyphs that stand written.
    for at in (first..64).rev() {
        glyphs[at] = glyph_of(rest % base);
        rest /= base;
    }
}

// Puts the last digits of n in a base behind what stands on a page, so many of them and at most 64, with zeros in front.
pub fn add_digits<const N: usize>(page: &mut Page<N>, base: Base, width: usize, n: u64)
    ensures { page.new ≡ grown N page.old (last_digits (base_of base) (min width 64) n) }
{
    let mut glyphs = [0; 64];
    let first = 64 - width.min(64);
    spell(&mut glyphs, base_of(base), first, n);
    page.put(&glyphs[first..]);
}

// Puts them at the place: all, or nothing where they do not fit.
pub fn put_digits(buffer: &mut [u8], place: Place, base: Base, width: usize, n: u64) -> Place
    ensures { (result ≡ moved_by (length buffer.old) place (length (last_digits (base_of base) (min width 64) n))) × (buffer.new ≡ put_at buffer.old place (last_digits (base_of base) (min width 64) n)) }
{
    let mut page: Page<64> = Page::new();
    add_digits(&mut page, base, width, n);
    page.put_into(buffer, place)
}

// ---- times

// Puts the time of so many cycles in seconds behind what stands on a page.
#[tactic(auto, using(text::proofs::PageLaws::grown_then), unfolding(crate::specs::Times::seconds_of))]
pub fn add_seconds<const N: usize>(page: &mut Page<N>, cycles: u64)
    ensures { page.new ≡ grown N page.old (seconds_of cycles) }
{
    page.put_named(b"", cycles / 10_000_000);
    page.put(b".");
    add_digits(page, Base::Decimal, 7, cycles);
}

// Puts it at the place, or nothing where it does not fit.
// Stays: the three lines of each `put_`: lent as a closure, the middle one would need a contract over a page that no caller sees, to save two lines.
pub fn put_seconds(buffer: &mut [u8], place: Place, cycles: u64) -> Place
    ensures { (result ≡ moved_by (length buffer.old) place (length (seconds_of cycles))) × (buffer.new ≡ put_at buffer.old place (seconds_of cycles)) }
{
    let mut page: Page<64> = Page::new();
    add_seconds(&mut page, cycles);
    page.put_into(buffer, place)
}

// Puts the time of so many cycles in nanoseconds behind what stands on a page. It may have more than 64 bits, so that the digits are those of the
// cycles with two zeros behind.
#[tactic(auto, using(text::proofs::PageLaws::grown_then), unfolding(crate::specs::Times::nanoseconds_of))]
pub fn add_nanoseconds<const N: usize>(page: &mut Page<N>, cycles: u64)
    ensures { page.new ≡ grown N page.old (nanoseconds_of cycles) }
{
    if cycles == 0 {
        page.put(b"0");
    } else {
        page.put_named(b"", cycles);
        page.put(b"00");
    }
}

// Puts it at the place, or nothing where it does not fit.
pub fn put_nanoseconds(buffer: &mut [u8], place: Place, cycles: u64) -> Place
    ensures { (result ≡ moved_by (length buffer.old) place (length (nanoseconds_of cycles))) × (buffer.new ≡ put_at buffer.old place (nanoseconds_of cycles)) }
{
    let mut page: Page<64> = Page::new();
    add_nanoseconds(&mut page, cycles);
    page.put_into(buffer, place)
}
