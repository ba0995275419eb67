// The bus of document 01, "One bus cycle": its state, what comes in, and what a cycle answers. One cycle's code is the crate `bus`; what it has to
// do is said in specs/, and demand 3 is proved of that.
#![tactic(auto)]

ghost use Rattle.std.specs.Prelude.{◌≡◌};
ghost use Rattle.basics.specs.Numbers.{lawful_limit};
ghost use Rattle.cycle.specs.Bounds.{fresh_of, fresh_answer};

use basics::Refusal;
use codes::Status;

// Words owed 1 to 16, age 0 to 255.
// Stays: no Option, since document 01 names this form: a transfer that is idle, or open with its words owed.
#[derive(Clone, Copy)]
pub enum Transfer {
    Idle,
    Open { owed: u8, age: u8 },
}

// The wave is a set of slots; the settling count is 0 to 2; the turn, the STARTs in this turn, stays below the hold limit. The owner is the slot of
// the master that started last, or none since the reset.
#[derive(Clone, Copy)]
pub struct Bus {
    pub wave: u16,
    pub settling: u8,
    pub turn: u8,
    pub owner: Option<u8>,
    pub limit: u8,
    pub transfer: Transfer,
}

// What the slave does in a cycle.
// Stays: no Option, since document 01 has these three events, and nothing is one of them beside two others.
#[derive(Clone, Copy)]
pub enum Event {
    Nothing,
    Strobe,
    Finish(Status),
}

// One record of the caller's table of sixteen. Words are 0, 1, 2, 4, 8 or 16.
#[derive(Clone, Copy, Default)]
pub struct Node {
    pub wants: bool,
    pub holds: bool,
    pub words: u8,
}

// What the table comes to: the slots that want, those that hold, and each slot's words.
#[derive(Clone, Copy, Default)]
pub struct Sets {
    pub wants: u16,
    pub holds: u16,
    pub words: [u8; 16],
}

#[derive(Clone, Copy, Default)]
pub enum Note {
    #[default]
    Clear,
    Short,
    Extra,
    Stray,
}

// What a cycle answers: the lines, the slot that starts in it, if one does, and the status with which a transfer ends, if one does.
#[derive(Clone, Copy, Default)]
pub struct Reply {
    pub rqst: bool,
    pub start: bool,
    pub ack: bool,
    pub starter: Option<u8>,
    pub status: Option<Status>,
    pub note: Note,
}

// What arbitration makes of a cycle: the wave, settling count, turn and owner after it, and who starts in it.
#[derive(Clone, Copy)]
pub struct Arbitration {
    pub wave: u16,
    pub settling: u8,
    pub turn: u8,
    pub owner: Option<u8>,
    pub starter: Option<u8>,
}

// What a cycle makes of the transfer.
#[derive(Clone, Copy)]
pub struct Progress {
    pub transfer: Transfer,
    pub ack: bool,
    pub status: Option<Status>,
    pub note: Note,
}

// The state after a cycle, and the cycle's reply.
#[derive(Clone, Copy)]
pub struct Moved {
    pub bus: Bus,
    pub reply: Reply,
}

impl Bus {
    pub const SLOTS: u8 = 16;

    pub const LIMIT_MOST: u8 = 16;
    // A transfer's age at which the watchdog ends it; the age restarts with each word (001, 2.6).
    pub const WATCHDOG: u16 = 256;
    // The words of the largest block (001, table 2.3).
    pub const WORDS_MOST: u8 = 16;

    // A lawful hold limit is 1 to 16.
    pub fn is_limit(limit: u8) -> bool
        ensures { result ≡ lawful_limit limit }
    {
        1 <= limit && limit <= Bus::LIMIT_MOST
    }

    // Empty, idle and without an owner.
    #[tactic(auto, unfolding(crate::specs::Bounds::fresh_of))]
    pub fn fresh(limit: u8) -> Result<Bus, Refusal>
        ensures { fresh_answer result ≡ fresh_of limit }
    {
        if Bus::is_limit(limit) {
            Ok(Bus {
                wave: 0,
                settling: 0,
                turn: 0,
                owner: None,
                limit,
                transfer: Transfer::Idle,
            })
        } else {
            Err(Refusal::Value)
        }
    }
}
