// The text of one record in a Value Change Dump (IEEE 1364), as bytes in a lent buffer. It is made on a page that has room for it, whatever the values, and
// then put into the buffer at once: so a buffer that is too short is not written.
#![tactic(auto)]

ghost use Rattle.std.specs.Prelude.{◌≡◌, false, ◌++◌, length, take, drop};
ghost use Rattle.io.specs.Digits.{last_digits};
ghost use Rattle.basics.specs.Lines.{one};
ghost use Rattle.text.specs.Pages.{grown};
ghost use Rattle.text.specs.Places.{moved_by, put_at};
ghost use Rattle.record.specs.Packing.{blank};
ghost use Rattle.vcdlines.specs.Signals.{signals, levels_of, levels, first_code};
ghost use Rattle.vcdlines.specs.Dump.{time_line, cycle_behind, change_of, changes_of, step_text, change_text, end_text};
ghost use Rattle.vcdlines.specs.Head.{head_text};

use figures::Base;
use record::Record;
use text::{Page, Place};

// Enough for a record's text, and for two steps where cycles are missing before it, with all lines changed and cycles of twenty digits.
const PAGE: usize = 544;

// The lines of the bus that a record has.
const LINES: usize = 81;

// The cycle behind this one.
fn behind(cycle: u64) -> u64
    ensures { result ≡ cycle_behind cycle }
{
    cycle.saturating_add(1)
}

// `#` and a cycle.
fn put_time<const N: usize>(page: &mut Page<N>, cycle: u64)
    ensures { page.new ≡ grown N page.old (time_line cycle) }
{
    page.put_named(b"#", cycle);
    page.put(b"\n");
}

// The level of a line alone.
fn put_level<const N: usize>(page: &mut Page<N>, active: bool)
    ensures { page.new ≡ grown N page.old (last_digits 2 1 (one active)) }
{
    figures::add_digits(page, Base::Binary, 1, basics::one_if(active) as u64);
}

// The levels of the first five signals.
fn put_reset_to_ack<const N: usize>(page: &mut Page<N>, lines: Record)
    ensures { page.new ≡ grown N page.old (levels_of (take 5 signals) lines) }
{
    put_level(page, lines.reset);
    put_level(page, lines.rqst);
    figures::add_digits(page, Base::Binary, 4, lines.arb as u64);
    put_level(page, lines.start);
    put_level(page, lines.ack);
}

// Of the next five.
fn put_tm1_to_ad<const N: usize>(page: &mut Page<N>, lines: Record)
    ensures { page.new ≡ grown N page.old (levels_of (take 5 (drop 5 signals)) lines) }
{
    put_level(page, lines.tm1);
    put_level(page, lines.tm0);
    put_level(page, lines.sp);
    put_level(page, lines.spv);
    figures::add_digits(page, Base::Binary, 32, lines.ad as u64);
}

// Of the last five.
fn put_vtm1_to_vad<const N: usize>(page: &mut Page<N>, lines: Record)
    ensures { page.new ≡ grown N page.old (levels_of (drop 10 signals) lines) }
{
    put_level(page, lines.vtm1);
    put_level(page, lines.vtm0);
    put_level(page, lines.vack);
    put_level(page, lines.vsack);
    figures::add_digits(page, Base::Binary, 33, lines.vad);
}

// The 81 levels of a record.
fn levels_of(lines: Record) -> [u8; LINES]
    ensures { result ≡ levels lines }
{
    let mut page = Page::<LINES>::new();
    put_reset_to_ack(&mut page, lines);
    put_tm1_to_ad(&mut page, lines);
    put_vtm1_to_vad(&mut page, lines);
    let mut all = [0; LINES];
    page.put_into(&mut all, Place::front());
    all
}

// A line, where its level has changed.
fn put_if_changed<const N: usize>(page: &mut Page<N>, first: bool, code: u8, before: u8, after: u8)
    ensures { page.new ≡ grown N page.old (change_of first code before after) }
{
    if first | (before != after) {
        page.put(&[after, code, b'\n']);
    }
}

// All lines whose levels have changed; the code of line k is 33 + k.
fn put_changes<const N: usize>(
    page: &mut Page<N>,
    first: bool,
    before: &[u8; LINES],
    after: &[u8; LINES],
)
    ensures { page.new ≡ grown N page.old (changes_of first first_code before.now after.now) }
{
    for (k, (was, is)) in before.iter().zip(after).enumerate() {
        put_if_changed(page, first, 33 + k as u8, *was, *is);
    }
}

// A cycle, and the lines that have changed in it.
fn put_step<const N: usize>(
    page: &mut Page<N>,
    first: bool,
    last: Record,
    cycle: u64,
    lines: Record,
)
    ensures { page.new ≡ grown N page.old (step_text first last cycle lines) }
{
    put_time(page, cycle);
    let before = levels_of(last);
    let after = levels_of(lines);
    put_changes(page, first, &before, &after);
}

// No line is active.
fn inactive() -> Record
    ensures { result ≡ blank }
{
    Record::default()
}

// The two steps of a record before which cycles are missing: to all lines inactive, and from there.
fn put_apart<const N: usize>(
    page: &mut Page<N>,
    stood: u64,
    last: Record,
    cycle: u64,
    lines: Record,
)
    ensures { page.new ≡ grown N page.old (step_text false last (cycle_behind stood) blank ++ step_text false blank cycle lines) }
{
    let none = inactive();
    put_step(page, false, last, behind(stood), none);
    put_step(page, false, none, cycle, lines);
}

// A record's text on the page.
fn put_text<const N: usize>(
    page: &mut Page<N>,
    first: bool,
    stood: u64,
    last: Record,
    gap: u64,
    cycle: u64,
    lines: Record,
)
    ensures { page.new ≡ grown N page.old (change_text first stood last gap cycle lines) }
{
    if !first & (1 < gap) {
        put_apart(page, stood, last, cycle, lines);
    } else {
        put_step(page, first, last, cycle, lines);
    }
}

// Puts the text of a record at the place, or nothing where it does not fit. It is the first one shown, or stands so many cycles, gap, behind the last one
// shown, which stood in stood.
// Stays: its numbers go one by one, in the order in which `change_text` takes them (a public signature, which docs/PROMISES.md names).
pub fn put_change(
    buffer: &mut [u8],
    place: Place,
    first: bool,
    stood: u64,
    last: Record,
    gap: u64,
    cycle: u64,
    lines: Record,
) -> Place
    ensures { (result ≡ moved_by (length buffer.old) place (length (change_text first stood last gap cycle lines))) × (buffer.new ≡ put_at buffer.old place (change_text first stood last gap cycle lines)) }
{
    let mut page = Page::<PAGE>::new();
    put_text(&mut page, first, stood, last, gap, cycle, lines);
    page.put_into(buffer, place)
}

// Puts the line at the end of a dump, or nothing where it does not fit: the cycle behind that of the last record shown.
pub fn put_end(buffer: &mut [u8], place: Place, cycle: u64) -> Place
    ensures { (result ≡ moved_by (length buffer.old) place (length (end_text cycle))) × (buffer.new ≡ put_at buffer.old place (end_text cycle)) }
{
    let mut page = Page::<PAGE>::new();
    put_time(&mut page, behind(cycle));
    page.put_into(buffer, place)
}

// Puts the head of a dump at the place, or nothing where it does not fit.
pub fn put_head(buffer: &mut [u8], place: Place) -> Place
    ensures { (result ≡ moved_by (length buffer.old) place (length head_text)) × (buffer.new ≡ put_at buffer.old place head_text) }
{
    text::put_word(
        buffer,
        place,
        b"$version Treadleoak SpurBus library $end\n$timescale 100 ns $end\n$scope module spurbus $end\n\
        $var wire 1 ! RESET $end\n$var wire 1 \" RQST $end\n$var wire 1 # ARB[3] $end\n$var wire 1 $ ARB[2] $end\n$var wire 1 % ARB[1] $end\n\
        $var wire 1 & ARB[0] $end\n$var wire 1 ' START $end\n$var wire 1 ( ACK $end\n$var wire 1 ) TM1 $end\n$var wire 1 * TM0 $end\n$var wire 1 + SP $end\n\
        $var wire 1 , SPV $end\n$var wire 1 - AD[31] $end\n$var wire 1 . AD[30] $end\n$var wire 1 / AD[29] $end\n$var wire 1 0 AD[28] $end\n\
        $var wire 1 1 AD[27] $end\n$var wire 1 2 AD[26] $end\n$var wire 1 3 AD[25] $end\n$var wire 1 4 AD[24] $end\n$var wire 1 5 AD[23] $end\n\
        $var wire 1 6 AD[22] $end\n$var wire 1 7 AD[21] $end\n$var wire 1 8 AD[20] $end\n$var wire 1 9 AD[19] $end\n$var wire 1 : AD[18] $end\n\
        $var wire 1 ; AD[17] $end\n$var wire 1 < AD[16] $end\n$var wire 1 = AD[15] $end\n$var wire 1 > AD[14] $end\n$var wire 1 ? AD[13] $end\n\
        $var wire 1 @ AD[12] $end\n$var wire 1 A AD[11] $end\n$var wire 1 B AD[10] $end\n$var wire 1 C AD[9] $end\n$var wire 1 D AD[8] $end\n\
        $var wire 1 E AD[7] $end\n$var wire 1 F AD[6] $end\n$var wire 1 G AD[5] $end\n$var wire 1 H AD[4] $end\n$var wire 1 I AD[3] $end\n\
        $var wire 1 J AD[2] $end\n$var wire 1 K AD[1] $end\n$var wire 1 L AD[0] $end\n$var wire 1 M VTM1 $end\n$var wire 1 N VTM0 $end\n\
        $var wire 1 O VACK $end\n$var wire 1 P VSACK $end\n$var wire 1 Q VAD[32] $end\n$var wire 1 R VAD[31] $end\n$var wire 1 S VAD[30] $end\n\
        $var wire 1 T VAD[29] $end\n$var wire 1 U VAD[28] $end\n$var wire 1 V VAD[27] $end\n$var wire 1 W VAD[26] $end\n$var wire 1 X VAD[25] $end\n\
        $var wire 1 Y VAD[24] $end\n$var wire 1 Z VAD[23] $end\n$var wire 1 [ VAD[22] $end\n$var wire 1 \\ VAD[21] $end\n$var wire 1 ] VAD[20] $end\n\
        $var wire 1 ^ VAD[19] $end\n$var wire 1 _ VAD[18] $end\n$var wire 1 ` VAD[17] $end\n$var wire 1 a VAD[16] $end\n$var wire 1 b VAD[15] $end\n\
        $var wire 1 c VAD[14] $end\n$var wire 1 d VAD[13] $end\n$var wire 1 e VAD[12] $end\n$var wire 1 f VAD[11] $end\n$var wire 1 g VAD[10] $end\n\
        $var wire 1 h VAD[9] $end\n$var wire 1 i VAD[8] $end\n$var wire 1 j VAD[7] $end\n$var wire 1 k VAD[6] $end\n$var wire 1 l VAD[5] $end\n\
        $var wire 1 m VAD[4] $end\n$var wire 1 n VAD[3] $end\n$var wire 1 o VAD[2] $end\n$var wire 1 p VAD[1] $end\n$var wire 1 q VAD[0] $end\n\
        $upscope $end\n$enddefinitions $end\n",
    )
}
