// Text in lent buffers: words and numbers put behind one another, and numbers read from words.
#![tactic(auto)]

mod page;

ghost use Rattle.std.specs.Prelude.{◌≡◌, true, ◌++◌, ◌+◌, ◌≤◌, ◌<◌, ◌^◌, length, take, drop};
ghost use Rattle.text.specs.Decimal.{digit, decimal_of};
ghost use Rattle.text.specs.Numbers.{is_digit, with_digit, capped, number_of};
ghost use Rattle.text.specs.Places.{front, fits, moved_by, put_at};

pub use page::Page;

// Where the next byte goes, and whether all that was put so far had room.
// Stays: a flag beside a number, and no Option: `fits`, `moved_by`, `put_at` and `Holds` (specs/Places) name both, for every place a caller may give.
#[derive(Clone, Copy)]
pub struct Place {
    pub at: usize,
    pub room: bool,
}

impl Place {
    // Where a text begins.
    pub fn front() -> Place
        ensures { result ≡ front }
    {
        Place { at: 0, room: true }
    }
}

// Without the sum of the place and the bytes, which may not fit a usize.
fn has_room(size: usize, place: Place, bytes: usize) -> bool
    ensures { result ≡ fits size place bytes }
{
    if bytes > size {
        return false;
    }
    place.room & (place.at <= size - bytes)
}

// The place behind so many bytes more.
fn moved(size: usize, place: Place, bytes: usize) -> Place
    ensures { result ≡ moved_by size place bytes }
{
    if has_room(size, place, bytes) {
        Place {
            at: place.at + bytes,
            room: true,
        }
    } else {
        Place { at: 0, room: false }
    }
}

// Puts a word at the place: all of it, or nothing where it does not fit.
pub fn put_word(buffer: &mut [u8], place: Place, word: &[u8]) -> Place
    ensures { (result ≡ moved_by (length buffer.old) place (length word.now)) × (buffer.new ≡ put_at buffer.old place word.now) }
{
    let end = moved(buffer.len(), place, word.len());
    if end.room {
        buffer[place.at..end.at].copy_from_slice(word);
    }
    end
}

fn digit_of(d: u64) -> u8
    requires { d < 10 }
    ensures { result ≡ digit d }
{
    b'0' + d as u8
}

// Spells n at the end of twenty bytes, the last digit first, and answers where it begins.
// Stays: the loop ends with the number, and no index says when.
fn spell(n: u64, digits: &mut [u8]) -> usize
    requires { length digits.old ≡ 20 }
    ensures { (result < 20) × (drop result digits.new ≡ decimal_of n) }
{
    let mut at = 19;
    let mut rest = n;
    while rest >= 10 {
        digits[at] = digit_of(rest % 10);
        rest /= 10;
        at -= 1;
    }
    digits[at] = digit_of(rest);
    at
}

// Puts a name and a number behind it, in decimal: both, or nothing where they do not both fit.
pub fn put_named(buffer: &mut [u8], place: Place, name: &[u8], n: u64) -> Place
    ensures { (result ≡ moved_by (length buffer.old) place (length (name.now ++ decimal_of n))) × (buffer.new ≡ put_at buffer.old place (name.now ++ decimal_of n)) }
{
    let mut digits = [0u8; 20];
    let first = spell(n, &mut digits);
    let behind = moved(buffer.len(), place, name.len());
    let both = moved(buffer.len(), behind, 20 - first);
    let fit = both.room;
    if fit {
        put_word(buffer, place, name);
        put_word(buffer, behind, &digits[first..]);
    }
    both
}

// Every number over it counts as it.
const LARGEST: u64 = 1 << 32;

fn is_digit(byte: u8) -> bool
    ensures { result ≡ is_digit byte }
{
    matches!(byte, b'0'..=b'9')
}

// One digit more behind a number, which is 2^32 at most before and after.
fn with_digit(n: u64, byte: u8) -> u64
    requires { (n ≤ 2 ^ 32) × (is_digit byte ≡ true) }
    ensures { (result ≡ capped (with_digit n byte)) × (result ≤ 2 ^ 32) }
{
    let longer = n * 10 + (byte - b'0') as u64;
    longer.min(LARGEST)
}

// What a word says as a number.
pub fn number_in(word: &[u8]) -> Option<u64>
    ensures { result ≡ number_of word.now }
{
    let empty = word.is_empty();
    if empty {
        return None;
    }
    let mut value = 0;
    for byte in word {
        if !is_digit(*byte) {
            return None;
        }
        value = with_digit(value, *byte);
    }
    Some(value)
}
