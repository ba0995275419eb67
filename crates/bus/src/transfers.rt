// What becomes of the transfer in a cycle (document 01: "Any other START opens a transfer at age 0", "A transfer open before ages by 1", and what
// a finish, the watchdog and a strobe do to it). The definitions stand in crate `cycle`, specs/Transfers.antt.
ghost use Rattle.std.specs.Prelude.{◌≡◌, ◌<◌};
ghost use Rattle.cycle.specs.Transfers.{opened, attention, stray_of, short_of, finished, timed_out, aged, watched, taken, struck, going_on, progress_of};

use crate::arbitration::makes_attention;
use codes::Status;
use cycle::{Bus, Event, Note, Progress, Sets, Transfer};

// Stays: the starter beside the sets, since `opened`, `attention` and `progress_of` (cycle/specs/Transfers) take them so.
// What a START opens: nothing in an attention cycle, else a transfer at age 0.
#[tactic(auto, unfolding(cycle::specs::Transfers::opened))]
fn open_by(starter: Option<u8>, sets: Sets) -> Transfer
    ensures { result ≡ opened starter sets.wants sets.words }
{
    match starter {
        Some(slot) if !makes_attention(slot, sets) => Transfer::Open {
            owed: sets.words[slot as usize],
            age: 0,
        },
        _ => Transfer::Idle,
    }
}

// START with ACK is an attention cycle.
#[tactic(auto, unfolding(cycle::specs::Transfers::attention))]
fn is_attention(starter: Option<u8>, sets: Sets) -> bool
    ensures { result ≡ attention starter sets.wants sets.words }
{
    starter.is_some_and(|slot| makes_attention(slot, sets))
}

// An event with nothing open before is noted as stray.
#[tactic(auto, unfolding(cycle::specs::Transfers::stray_of))]
fn note_stray(e: Event) -> Note
    ensures { result ≡ stray_of e }
{
    match e {
        Event::Nothing => Note::Clear,
        Event::Strobe | Event::Finish(_) => Note::Stray,
    }
}

// Only success can be short.
#[tactic(auto, unfolding(cycle::specs::Transfers::short_of))]
fn note_short(status: Status, owed: u8) -> Note
    ensures { result ≡ short_of status owed }
{
    match status {
        Status::Success if 1 < owed => Note::Short,
        _ => Note::Clear,
    }
}

// A transfer open before the cycle: the words it owes and its age.
#[derive(Clone, Copy)]
struct Open {
    owed: u8,
    age: u8,
}

impl Open {
    // A finish gives ACK and idles the transfer.
    fn finish(self, status: Status) -> Progress
        ensures { result ≡ finished status self.owed }
    {
        Progress {
            transfer: Transfer::Idle,
            ack: true,
            status: Some(status),
            note: note_short(status, self.owed),
        }
    }

    // The transfer goes on, a cycle older.
    fn grow(self, note: Note) -> Progress
        requires { self.age < 255 }
        ensures { result ≡ aged self.owed self.age note }
    {
        Progress {
            transfer: Transfer::Open {
                owed: self.owed,
                age: self.age + 1,
            },
            ack: false,
            status: None,
            note,
        }
    }

    // No finish, and no word taken: at age 256 the watchdog ends the transfer, and nothing is noted.
    #[tactic(auto, unfolding(cycle::specs::Transfers::watched))]
    fn watch(self, note: Note) -> Progress
        ensures { result ≡ watched self.owed self.age note }
    {
        if self.age as u16 + 1 == Bus::WATCHDOG {
            time_out()
        } else {
            self.grow(note)
        }
    }

    // An owed word is taken, and the age returns to 0 (02, wish 5).
    fn take(self) -> Progress
        requires { 1 < self.owed }
        ensures { result ≡ taken self.owed }
    {
        Progress {
            transfer: Transfer::Open {
                owed: self.owed - 1,
                age: 0,
            },
            ack: false,
            status: None,
            note: Note::Clear,
        }
    }

    // A strobe takes one owed word if more than one is owed, at age 256 too, else it is noted as extra.
    #[tactic(auto, unfolding(cycle::specs::Transfers::struck))]
    fn strike(self) -> Progress
        ensures { result ≡ struck self.owed self.age }
    {
        if 1 < self.owed {
            self.take()
        } else {
            self.watch(Note::Extra)
        }
    }

    // A finish wins over the watchdog, and so does a strobe that takes a word.
    #[tactic(auto, unfolding(cycle::specs::Transfers::going_on))]
    fn go_on(self, e: Event) -> Progress
        ensures { result ≡ going_on e self.owed self.age }
    {
        match e {
            Event::Finish(status) => self.finish(status),
            Event::Strobe => self.strike(),
            Event::Nothing => self.watch(Note::Clear),
        }
    }
}

// The watchdog gives ACK with timeout.
fn time_out() -> Progress
    ensures { result ≡ timed_out }
{
    Progress {
        transfer: Transfer::Idle,
        ack: true,
        status: Some(Status::Timeout),
        note: Note::Clear,
    }
}

// What the cycle makes of the transfer t, open or idle before it.
#[tactic(auto, unfolding(cycle::specs::Transfers::progress_of))]
pub(crate) fn carry(t: Transfer, e: Event, starter: Option<u8>, sets: Sets) -> Progress
    ensures { result ≡ progress_of t e starter sets.wants sets.words }
{
    match t {
        Transfer::Idle => Progress {
            transfer: open_by(starter, sets),
            ack: is_attention(starter, sets),
            status: None,
            note: note_stray(e),
        },
        Transfer::Open { owed, age } => Open { owed, age }.go_on(e),
    }
}
