// The line record (document 01, "The line record"): sixteen bytes, bit-packed, most significant first.
#![tactic(auto)]

ghost use Rattle.std.specs.Prelude.{◌≡◌, false, ◌++◌, ◌+◌, ◌*◌, ◌%◌, ◌/◌, ◌≤◌, ◌<◌, length, take, drop};
ghost use Rattle.basics.specs.Lines.{one};
ghost use Rattle.basics.specs.Answers.{call_number};
ghost use Rattle.record.specs.Layout.{packed, record_in};
ghost use Rattle.record.specs.Packing.{too_wide, too_few, pack_refusal, pack_into, unpacked_answer, parsed, unpack_of, lines_of, spare_of};

use basics::Refusal;

// One bus cycle's lines with their stamp; the spare bits are not part of it. All zeros where nothing is read.
#[derive(Clone, Copy, Default)]
pub struct Record {
    pub stamp: u32,
    pub reset: bool,
    pub rqst: bool,
    pub arb: u8,
    pub start: bool,
    pub ack: bool,
    pub tm1: bool,
    pub tm0: bool,
    pub sp: bool,
    pub spv: bool,
    pub ad: u32,
    pub vtm1: bool,
    pub vtm0: bool,
    pub vack: bool,
    pub vsack: bool,
    pub vad: u64,
}

// Of the fields that their types let be too wide there are two: ARB has 4 bits and VAD 33.
fn is_too_wide(lines: Record) -> bool
    ensures { result ≡ too_wide lines }
{
    (lines.arb >= 16) | (lines.vad >= 8589934592)
}

// Without the sum of offset and 16, which may not fit.
fn is_too_few(size: usize, at: usize) -> bool
    ensures { result ≡ too_few size at }
{
    at > size || size - at < 16
}

// Four lines side by side.
fn four(a: bool, b: bool, c: bool, d: bool) -> u8
    ensures { (result ≡ one a * 8 + one b * 4 + one c * 2 + one d) × (result < 16) }
{
    basics::one_if(a) * 8 + basics::one_if(b) * 4 + basics::one_if(c) * 2 + basics::one_if(d)
}

// Byte 4: RESET, RQST, ARB, START, ACK.
fn byte_four(lines: Record) -> u8
    requires { lines.arb < 16 }
    ensures { result ≡ one lines.reset * 128 + one lines.rqst * 64 + lines.arb * 4 + one lines.start * 2 + one lines.ack }
{
    basics::one_if(lines.reset) * 128
        + basics::one_if(lines.rqst) * 64
        + lines.arb * 4
        + basics::one_if(lines.start) * 2
        + basics::one_if(lines.ack)
}

// Byte 5: TM1, TM0, SP, SPV and the four highest lines of AD.
fn byte_five(lines: Record) -> u8
    ensures { result ≡ (one lines.tm1 * 8 + one lines.tm0 * 4 + one lines.sp * 2 + one lines.spv) * 16 + lines.ad / 268435456 }
{
    four(lines.tm1, lines.tm0, lines.sp, lines.spv) * 16 + (lines.ad / 268435456) as u8
}

// Byte 9: the four lowest lines of AD; VTM1, VTM0, VACK, VSACK.
fn byte_nine(lines: Record) -> u8
    ensures { result ≡ lines.ad % 16 * 16 + (one lines.vtm1 * 8 + one lines.vtm0 * 4 + one lines.vack * 2 + one lines.vsack) }
{
    (lines.ad % 16) as u8 * 16 + four(lines.vtm1, lines.vtm0, lines.vack, lines.vsack)
}

// The field writer: the sixteen bytes of a record at the front of the part that was lent.
// Stays: byte by byte, since AD and VAD begin and end within a byte, and `to_be_bytes` would serve the stamp's four alone.
fn write_fields(part: &mut [u8], lines: Record)
    requires { (16 ≤ length part.old) × (too_wide lines ≡ false) }
    ensures { part.new ≡ packed lines ++ drop 16 part.old }
{
    let stamp = lines.stamp;
    let ad = lines.ad;
    let vad = lines.vad;
    part[0] = (stamp / 16777216) as u8;
    part[1] = (stamp / 65536 % 256) as u8;
    part[2] = (stamp / 256 % 256) as u8;
    part[3] = (stamp % 256) as u8;
    part[4] = byte_four(lines);
    part[5] = byte_five(lines);
    part[6] = (ad / 1048576 % 256) as u8;
    part[7] = (ad / 4096 % 256) as u8;
    part[8] = (ad / 16 % 256) as u8;
    part[9] = byte_nine(lines);
    part[10] = (vad / 33554432) as u8;
    part[11] = (vad / 131072 % 256) as u8;
    part[12] = (vad / 512 % 256) as u8;
    part[13] = (vad / 2 % 256) as u8;
    part[14] = (vad % 2 * 128) as u8;
    part[15] = 0;
}

// Packs a record at an offset of a lent buffer: only its sixteen bytes change, and nothing on a refusal. A field too wide is 2, too few bytes 6.
pub fn pack(buf: &mut [u8], at: usize, lines: Record) -> Result<(), Refusal>
    ensures { (call_number result ≡ pack_refusal buf.old at lines) × (buf.new ≡ pack_into buf.old at lines) }
{
    if is_too_wide(lines) {
        return Err(Refusal::Place);
    }
    if is_too_few(buf.len(), at) {
        return Err(Refusal::Room);
    }
    write_fields(&mut buf[at..], lines);
    Ok(())
}

// AD: the lower half of a byte, three bytes, and the upper half of a byte.
fn ad_of(a: u8, b: u8, c: u8, d: u8, e: u8) -> u32
    ensures { result ≡ a % 16 * 268435456 + b * 1048576 + c * 4096 + d * 16 + e / 16 }
{
    (a % 16) as u32 * 268435456 + u32::from_be_bytes([b, c, d, e]) / 16
}

// VAD: four bytes and the highest bit of a fifth.
fn vad_of(a: u8, b: u8, c: u8, d: u8, e: u8) -> u64
    ensures { result ≡ a * 33554432 + b * 131072 + c * 512 + d * 2 + e / 128 }
{
    u32::from_be_bytes([a, b, c, d]) as u64 * 2 + (e / 128) as u64
}

// The spare bits: a byte without its highest bit, and a byte.
fn spare_of(a: u8, b: u8) -> u16
    ensures { result ≡ a % 128 * 256 + b }
{
    (a % 128) as u16 * 256 + b as u16
}

// The record that the first sixteen bytes of a part hold.
fn read_record(part: &[u8]) -> Record
    requires { 16 ≤ length part.now }
    ensures { result ≡ record_in (take 16 part.now) }
{
    let four = part[4];
    let five = part[5];
    let nine = part[9];
    let stamp = u32::from_be_bytes([part[0], part[1], part[2], part[3]]);
    let ad = ad_of(five, part[6], part[7], part[8], nine);
    let vad = vad_of(part[10], part[11], part[12], part[13], part[14]);
    Record {
        stamp,
        reset: four / 128 % 2 == 1,
        rqst: four / 64 % 2 == 1,
        arb: four / 4 % 16,
        start: four / 2 % 2 == 1,
        ack: four % 2 == 1,
        tm1: five / 128 % 2 == 1,
        tm0: five / 64 % 2 == 1,
        sp: five / 32 % 2 == 1,
        spv: five / 16 % 2 == 1,
        ad,
        vtm1: nine / 8 % 2 == 1,
        vtm0: nine / 4 % 2 == 1,
        vack: nine / 2 % 2 == 1,
        vsack: nine % 2 == 1,
        vad,
    }
}

// The record at the front of a part, whatever its spare bits: the judge tells of those by a rule and not by a refusal.
pub fn lines_in(part: &[u8]) -> Record
    ensures { result ≡ lines_of part.now }
{
    if is_too_few(part.len(), 0) {
        return Record::default();
    }
    read_record(part)
}

// Its spare bits.
pub fn spare_in(part: &[u8]) -> u16
    ensures { result ≡ spare_of part.now }
{
    if is_too_few(part.len(), 0) {
        return 0;
    }
    spare_of(part[14], part[15])
}

// What the first sixteen bytes of a part say; spare bits that are set are 3.
fn read_part(part: &[u8]) -> Result<Record, Refusal>
    requires { 16 ≤ length part.now }
    ensures { unpacked_answer result ≡ parsed (take 16 part.now) }
{
    if spare_of(part[14], part[15]) != 0 {
        return Err(Refusal::Value);
    }
    Ok(read_record(part))
}

// Unpacks the record at an offset of a buffer; fewer than sixteen bytes from there are 6.
pub fn unpack(buf: &[u8], at: usize) -> Result<Record, Refusal>
    ensures { unpacked_answer result ≡ unpack_of buf.now at }
{
    if is_too_few(buf.len(), at) {
        return Err(Refusal::Room);
    }
    read_part(&buf[at..])
}
