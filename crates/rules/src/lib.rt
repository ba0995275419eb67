// The judge of recordings (document 01, "The judge"): its state, its tally and its verdict. The code that judges
// stands in the crates `breach` (which rule a record breaks) and `judge`.
#![tactic(auto)]

ghost use Rattle.std.specs.Prelude.{◌≡◌};
ghost use Rattle.basics.specs.Answers.{answered};
ghost use Rattle.rules.specs.Names.{only};
ghost use Rattle.rules.specs.Rules.{strobe};
ghost use Rattle.rules.specs.State.{is_open, open_words, open_strobes, open_age, open_busy, fresh_wave, zero_tally};
ghost use Rattle.rules.specs.Verdict.{no_judge, fresh_of, refused_by};

use basics::Refusal;

// The transfer that is open before the next record, with its words, the strobes counted so far, its age in cycles since its START or its last strobe,
// and the cycles that it has been busy, its START's with them.
// Stays: no Option, since it has the form that document 01 names for the bus's transfer, idle or open with its numbers (`is_open`, `open_words`).
#[derive(Clone, Copy, PartialEq, Eq)]
pub enum Transfer {
    Idle,
    Open {
        words: u8,
        strobes: u8,
        age: u16,
        busy: u32,
    },
}

// An open transfer's numbers; all are 0 where none is open.
#[derive(Clone, Copy, Default)]
pub struct Counts {
    pub words: u8,
    pub strobes: u8,
    pub age: u16,
    pub busy: u32,
}

// What the judge keeps of RQST, of the wave and of its STARTs.
#[derive(Clone, Copy, PartialEq, Eq)]
pub struct Wave {
    // RQST in the last record, and one cycle before that record
    pub rqst: bool,
    pub prior: bool,
    // the owner of the bus, who may park: the slot of the last START of a wave since the reset, or nobody where there was none
    pub owner: Option<u8>,
    // cycles from the wave's last START to the last record, 3 for three or more and where the wave has had none
    pub since: u8,
    // ARB at that START, 15 where there is none, and how many STARTs in a row had it
    pub arb: u8,
    pub turn: u8,
}

// The judge's state before a record.
#[derive(Clone, Copy, PartialEq, Eq)]
pub struct Judge {
    pub limit: u8,
    // a record has been judged, and `stamp` is its stamp
    // Stays: no Option, since a caller may hand in any stamp with `seen` false and, where a call is refused, is handed it back as it was.
    pub seen: bool,
    pub stamp: u32,
    pub transfer: Transfer,
    pub wave: Wave,
}

// The totals: records, the sum of the stamps' differences, STARTs, ACKs and aborted transfers.
#[derive(Clone, Copy, PartialEq, Eq, Default)]
pub struct Tally {
    pub records: u32,
    pub span: u64,
    pub starts: u32,
    pub acks: u32,
    pub aborted: u32,
}

// Stays: rules/specs/Names (`only`, `no_rule`) and Rules (`rules`) name a rule by document 01's number, and programs print it.
// A rule's name: its number in document 01 and, of rule 8, its kind (document 02, wish 2): 1 for 8a, 2 for 8b, 3 for 8c. The other rules
// are of kind 0; both are 0 where no rule is broken.
#[derive(Clone, Copy, PartialEq, Eq, Default)]
pub struct Rule {
    pub number: u8,
    pub kind: u8,
}

// Stays: as `Rule`, its definitions in rules/specs/Run and Verdict (`step_of`, `verdict_of`) name a rule by document 01's number.
// How far a recording has been judged: the rule that a record broke, by number and kind (0: none so far), the span at that record, and the
// state and the tally before it.
#[derive(Clone, Copy)]
pub struct Progress {
    pub rule: u8,
    pub kind: u8,
    pub span: u64,
    pub judge: Judge,
    pub tally: Tally,
}

// A broken rule, by number and kind; the place of its record, which is the tally's records before it; and the span there.
#[derive(Clone, Copy, PartialEq, Eq)]
pub struct Broken {
    pub rule: u8,
    pub kind: u8,
    pub place: u32,
    pub span: u64,
}

// What a call of the judge says. The last three are refusals 5, 8 and 1.
// Stays: no Result, since a breach is an answer and no refusal, and 1 and 8 too come with the totals so far (document 01), which no `Err` would hold.
#[derive(Clone, Copy, PartialEq, Eq)]
pub enum Verdict {
    Conforming,
    Breach(Broken),
    OutOfBounds,
    TooMany,
    Torn,
}

// A verdict with the state that the call leaves, for a caller who lends the tally.
#[derive(Clone, Copy)]
pub struct Judged {
    pub verdict: Verdict,
    pub judge: Judge,
}

// The same all by value.
#[derive(Clone, Copy)]
pub struct Outcome {
    pub verdict: Verdict,
    pub judge: Judge,
    pub tally: Tally,
}

// Whether a transfer is open.
pub fn is_open(transfer: Transfer) -> bool
    ensures { result ≡ is_open transfer }
{
    matches!(transfer, Transfer::Open { .. })
}

// Whether a record is a strobe of an open transfer of so many words: TM0 with neither START nor ACK, in a block.
pub fn is_strobe(words: u8, start: bool, ack: bool, tm0: bool) -> bool
    ensures { result ≡ strobe words start ack tm0 }
{
    (1 < words) & tm0 & !start & !ack
}

// The verdict of a call that is refused by this number.
// Stays: public, with a promise for every number (`refused_by` of rules/specs/Verdict); a caller that has a `Refusal` gives its number.
#[tactic(auto, unfolding(crate::specs::Verdict::refused_by))]
pub fn refused_by(number: u8) -> Verdict
    ensures { result ≡ refused_by number }
{
    match number {
        5 => Verdict::OutOfBounds,
        8 => Verdict::TooMany,
        _ => Verdict::Torn,
    }
}

impl Transfer {
    pub fn counts(self) -> Counts
        ensures words { result.words ≡ open_words self }
        ensures strobes { result.strobes ≡ open_strobes self }
        ensures age { result.age ≡ open_age self }
        ensures busy { result.busy ≡ open_busy self }
    {
        match self {
            Transfer::Idle => Counts::default(),
            Transfer::Open {
                words,
                strobes,
                age,
                busy,
            } => Counts {
                words,
                strobes,
                age,
                busy,
            },
        }
    }
}

impl Rule {
    // A rule that has no kinds.
    pub fn only(number: u8) -> Rule
        ensures { result ≡ only number }
    {
        Rule { number, kind: 0 }
    }

    // A kind of rule 8.
    pub fn eighth(kind: u8) -> Rule
        ensures { result ≡ record { number = 8; kind = kind } }
    {
        Rule { number: 8, kind }
    }
}

impl Wave {
    // Stays: no derived `Default`, since `since` 3 and ARB 15, which say that there was no START, are not zeros (`fresh_wave`).
    // No wave, and no START of one since the reset.
    pub fn fresh() -> Wave
        ensures { result ≡ fresh_wave }
    {
        Wave {
            rqst: false,
            prior: false,
            owner: None,
            since: 3,
            arb: 15,
            turn: 0,
        }
    }
}

impl Tally {
    // Nothing counted yet.
    pub fn zero() -> Tally
        ensures { result ≡ zero_tally }
    {
        Tally::default()
    }
}

impl Judge {
    // "Watchdog 256 cycles", "Hold limit 1 to 16 STARTs a turn", and at most 2^30 records.
    pub const WATCHDOG: u16 = 256;

    pub const MOST_STARTS: u8 = 16;

    pub const MOST_RECORDS: u32 = 1073741824;

    // A recording is read as following a reset. A limit that isn't lawful is refused by 3.
    #[tactic(auto, unfolding(crate::specs::Verdict::fresh_of))]
    pub fn fresh(limit: u8) -> Result<Judge, Refusal>
        ensures { answered no_judge result ≡ fresh_of limit }
    {
        let lawful = (1 <= limit) & (limit <= Judge::MOST_STARTS);
        if !lawful {
            return Err(Refusal::Value);
        }
        Ok(Judge {
            limit,
            seen: false,
            stamp: 0,
            transfer: Transfer::Idle,
            wave: Wave::fresh(),
        })
    }
}
