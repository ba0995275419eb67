// START codes, ACK status and parity (001, 2.6, tables 2.2 to 2.4): what a START asks for, both ways, how an ACK ends it, and SP.
#![tactic(auto)]

ghost use Rattle.std.specs.Prelude.{◌≡◌, ◌<◌};
ghost use Rattle.basics.specs.Lines.{active};
ghost use Rattle.codes.specs.Units.{measures_of, words_in};
ghost use Rattle.codes.specs.Owed.{words_of};
ghost use Rattle.codes.specs.Start.{block_of, meaning, decode_of, decoded_answer, encode_of, encoded_answer};
ghost use Rattle.codes.specs.Modes.{mode_of, mode_at, row_of};
ghost use Rattle.codes.specs.Ack.{status_of, status_lines_of};
ghost use Rattle.codes.specs.Parity.{parity_of};

use basics::Refusal;

// What a transfer moves (001, tables 2.2 and 2.3): a byte, a halfword, a word, or a block of two to sixteen words.
#[derive(Clone, Copy, PartialEq, Eq)]
pub enum Unit {
    Byte,
    Halfword,
    Word,
    Two,
    Four,
    Eight,
    Sixteen,
}

// What a master asks for with a START.
#[derive(Clone, Copy, PartialEq, Eq)]
pub struct Operation {
    pub write: bool,
    pub unit: Unit,
    pub address: u32,
}

// The lines that say so in the START's cycle.
#[derive(Clone, Copy, PartialEq, Eq)]
pub struct Code {
    pub tm1: bool,
    pub tm0: bool,
    pub ad: u32,
}

// What a START's lines mean: an operation, and beside it the byte lanes of the enclosing word that carry its unit (document 02, wish 4), lane k
// in bit k. The encoder takes the operation alone, so that nobody can hand over lanes that don't fit it.
#[derive(Clone, Copy, PartialEq, Eq)]
pub struct Meaning {
    pub operation: Operation,
    pub lanes: u8,
}

// How a transfer ended (001, table 2.4).
#[derive(Clone, Copy, PartialEq, Eq)]
pub enum Status {
    Success,
    Error,
    Timeout,
    Again,
}

// The lines that say so in the ACK's cycle.
#[derive(Clone, Copy, PartialEq, Eq)]
pub struct StatusLines {
    pub tm1: bool,
    pub tm0: bool,
}

// What a row of table 2.2 names: of a block it does not say the length, which stands in AD2 upwards (table 2.3).
#[derive(Clone, Copy)]
pub enum Kind {
    Byte,
    Halfword,
    Word,
    Block,
}

// A row of table 2.2: whether it writes, what it names, and the byte of the word at which that begins.
// Stays: without names of fields, so that a row of the table takes one line; who reads a row names its parts.
#[derive(Clone, Copy)]
pub struct Mode(pub bool, pub Kind, pub u8);

// Table 2.2 in its row order: TM1 TM0 AD1 AD0 from all active (LLLL in 001, where low is active) down to none. Nothing else spells it.
const MODES: [Mode; 16] = [
    Mode(true, Kind::Byte, 3),
    Mode(true, Kind::Byte, 2),
    Mode(true, Kind::Byte, 1),
    Mode(true, Kind::Byte, 0),
    Mode(true, Kind::Halfword, 2),
    Mode(true, Kind::Block, 0),
    Mode(true, Kind::Halfword, 0),
    Mode(true, Kind::Word, 0),
    Mode(false, Kind::Byte, 3),
    Mode(false, Kind::Byte, 2),
    Mode(false, Kind::Byte, 1),
    Mode(false, Kind::Byte, 0),
    Mode(false, Kind::Halfword, 2),
    Mode(false, Kind::Block, 0),
    Mode(false, Kind::Halfword, 0),
    Mode(false, Kind::Word, 0),
];

// A row, counted from 0.
fn mode_at(row: usize) -> Mode
    requires { row < 16 }
    ensures { result ≡ mode_at row }
{
    MODES[row]
}

// The row of a START's lines: each active line is nearer to the top.
fn row_of(code: Code) -> usize
    ensures { (result ≡ row_of code.tm1 code.tm0 code.ad) × (result < 16) }
{
    let high = 8 * basics::one_if(code.tm1) + 4 * basics::one_if(code.tm0);
    15 - (high as usize) - (code.ad % 4) as usize
}

// What the table says of the lines of a START.
fn mode_of(code: Code) -> Mode
    ensures { result ≡ mode_of code.tm1 code.tm0 (active 1 code.ad) (active 0 code.ad) }
{
    mode_at(row_of(code))
}

// Table 2.3 on the low code bits, turned round so that AD2, which is looked at first, counts most: each length is then one range. A block with AD2
// to AD5 all active has none.
fn block_length(ad: u32) -> Option<Unit>
    ensures { result ≡ block_of ad }
{
    let turned = ad / 4 % 2 * 8 + ad / 8 % 2 * 4 + ad / 16 % 2 * 2 + ad / 32 % 2;
    match turned {
        0..=7 => Some(Unit::Two),
        8..=11 => Some(Unit::Four),
        12..=13 => Some(Unit::Eight),
        14 => Some(Unit::Sixteen),
        _ => None,
    }
}

// What tables 2.2 and 2.3 say of a unit: its bytes, to which its address is aligned; the words that its transfer owes; whether its code has
// TM0 active; and what the code has active among the address's low lines, which are zero, so that the sum in `encode` can't carry.
// Stays: without names of fields, as table 2.2's rows.
#[derive(Clone, Copy)]
struct Measures(u32, u8, bool, u32);

fn measured(unit: Unit) -> Measures
    ensures { result ≡ measures_of unit }
{
    match unit {
        Unit::Byte => Measures(1, 1, true, 0),
        Unit::Halfword => Measures(2, 1, false, 1),
        Unit::Word => Measures(4, 1, false, 0),
        Unit::Two => Measures(8, 2, false, 2),
        Unit::Four => Measures(16, 4, false, 6),
        Unit::Eight => Measures(32, 8, false, 14),
        Unit::Sixteen => Measures(64, 16, false, 30),
    }
}

// The words that a transfer of the unit owes.
pub fn words(unit: Unit) -> u8
    ensures { result ≡ words_in unit }
{
    let Measures(_, words, _, _) = measured(unit);
    words
}

// Every meaning that the decoder gives is made here, from the table's direction, a unit, its address and its lanes.
fn means(write: bool, unit: Unit, address: u32, lanes: u8) -> Meaning
    ensures { result ≡ record { operation = record { write = write; unit = unit; address = address }; lanes = lanes } }
{
    Meaning {
        operation: Operation {
            write,
            unit,
            address,
        },
        lanes,
    }
}

// All four lanes of a word.
const WHOLE: u8 = 0b1111;

// A block begins where the lines below its size are zero, and has four lanes in each of its words.
fn block(write: bool, ad: u32) -> Result<Meaning, Refusal>
    ensures { decoded_answer result ≡ meaning write ad (block_of ad) }
{
    let unit = block_length(ad).ok_or(Refusal::Code)?;
    let Measures(bytes, _, _, _) = measured(unit);
    let low = ad % bytes;
    Ok(means(write, unit, ad - low, WHOLE))
}

// What the lines of a START ask for, and by which lanes; refusal 4 for a code with no meaning. A byte, halfword or word stands at its row's
// offset in the word at AD, and has one lane, two or four from there on (document 02, wish 4). Nothing else in the tree works out what the low lines
// of a START mean (docs/DECISIONS.md, "Who reads TM and AD").
pub fn decode(code: Code) -> Result<Meaning, Refusal>
    ensures { decoded_answer result ≡ decode_of code.tm1 code.tm0 code.ad }
{
    let ad = code.ad;
    let Mode(write, kind, offset) = mode_of(code);
    let address = ad - ad % 4 + offset as u32;
    match kind {
        Kind::Byte => Ok(means(write, Unit::Byte, address, 0b1 << offset)),
        Kind::Halfword => Ok(means(write, Unit::Halfword, address, 0b11 << offset)),
        Kind::Word => Ok(means(write, Unit::Word, address, WHOLE)),
        Kind::Block => block(write, ad),
    }
}

// The words that a START with these lines owes, 0 where the code has no meaning. A write owes what a read owes.
pub fn words_owed(tm0: bool, ad: u32) -> u8
    ensures { result ≡ words_of tm0 ad }
{
    let code = Code {
        tm1: false,
        tm0,
        ad,
    };
    match decode(code) {
        Ok(meaning) => words(meaning.operation.unit),
        Err(_) => 0,
    }
}

// The lines that a master drives for an operation; refusal 4 for an address not aligned to its unit.
pub fn encode(op: Operation) -> Result<Code, Refusal>
    ensures { encoded_answer result ≡ encode_of op }
{
    let Measures(bytes, _, byte, mark) = measured(op.unit);
    if op.address % bytes != 0 {
        return Err(Refusal::Code);
    }
    Ok(Code {
        tm1: op.write,
        tm0: byte,
        ad: op.address + mark,
    })
}

// Stays: TM1 and TM0 as two values, and no `StatusLines`, in `status_of`: a public signature, whose definition takes them so.
// How an ACK with these lines ends its transfer, and the lines of an ending (001, table 2.4).
pub fn status_of(tm1: bool, tm0: bool) -> Status
    ensures { result ≡ status_of tm1 tm0 }
{
    match (tm1, tm0) {
        (true, true) => Status::Success,
        (true, false) => Status::Error,
        (false, true) => Status::Timeout,
        (false, false) => Status::Again,
    }
}

pub fn status_lines(status: Status) -> StatusLines
    ensures { result ≡ status_lines_of status }
{
    match status {
        Status::Success => StatusLines {
            tm1: true,
            tm0: true,
        },
        Status::Error => StatusLines {
            tm1: true,
            tm0: false,
        },
        Status::Timeout => StatusLines {
            tm1: false,
            tm0: true,
        },
        Status::Again => StatusLines {
            tm1: false,
            tm0: false,
        },
    }
}

// Whether SP is to be active with these AD lines: an odd number of them is.
pub fn parity(ad: u32) -> bool
    ensures { result ≡ parity_of ad }
{
    ad.count_ones() % 2 == 1
}
