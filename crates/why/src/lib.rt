// What a record that breaks a rule had, and what would have conformed, as two figures: by the judge's state before the record, its lines and its spare
// bits, and the stamp's difference to the last one.
#![tactic(auto)]

ghost use Rattle.std.specs.Prelude.{◌≡◌, ◌+◌};
ghost use Rattle.basics.specs.Lines.{one};
ghost use Rattle.rules.specs.Rules.{strobe};
ghost use Rattle.why.specs.Figures.{figures, rows_of, figures_in, figures_of};

use record::Record;
use rules::{Counts, Judge, Rule};

// What was found, and the bound that it had to keep.
#[derive(Clone, Copy, PartialEq, Eq, Default)]
pub struct Figures {
    pub found: u64,
    pub bound: u64,
}

fn pair(found: u64, bound: u64) -> Figures
    ensures { result ≡ figures found bound }
{
    Figures { found, bound }
}

// The strobes of the open transfer, this record's with them where it is one; 0 where none is open.
fn strobes_at(open: Counts, lines: Record) -> u64
    ensures { result ≡ open.strobes + one (strobe open.words lines.start lines.ack lines.tm0) }
{
    let strobe = rules::is_strobe(open.words, lines.start, lines.ack, lines.tm0);
    open.strobes as u64 + basics::one_if(strobe) as u64
}

// The rules that are about a number, each with its figures of a record that stands d cycles after the last one.
fn rows_of(judge: Judge, lines: Record, spare: u16, d: u32) -> [(Rule, Figures); 9]
    ensures { result ≡ rows_of judge (record { lines = lines; spare = spare }) d }
{
    let open = judge.transfer.counts();
    let wave = judge.wave;
    let sp = basics::one_if(lines.sp) as u64;
    let odd = basics::one_if(codes::parity(lines.ad)) as u64;
    // the START's own cycle is among those that the transfer has been busy for
    let opened = (open.busy as u64 + d as u64).saturating_sub(1);
    let since = wave.since as u64 + d as u64;
    let turn = wave.turn as u64 + 1;
    let age = open.age as u64 + d as u64;
    let strobes = strobes_at(open, lines);
    let most = (open.words as u64).saturating_sub(1);
    [
        (Rule::only(1), pair(spare as u64, 0)),
        (Rule::only(2), pair(d as u64, 2147483648)),
        (Rule::only(3), pair(sp, odd)),
        (Rule::only(4), pair(opened, 0)),
        (Rule::eighth(3), pair(since, 3)),
        (Rule::only(10), pair(lines.arb as u64, wave.arb as u64)),
        (Rule::only(11), pair(turn, judge.limit as u64)),
        (Rule::only(12), pair(age, Judge::WATCHDOG as u64)),
        (Rule::only(13), pair(strobes, most)),
    ]
}

// What the rows have for a rule, both 0 where they have none.
fn figures_in(rule: Rule, rows: [(Rule, Figures); 9]) -> Figures
    ensures { result ≡ figures_in rule rows }
{
    for (name, pair) in rows {
        if rule == name {
            return pair;
        }
    }
    Figures::default()
}

// What a record has that breaks this rule, and what would have conformed; both 0 for a rule that is about no number. `d` is the stamp's difference to
// the last one, `judge` the state before the record.
#[tactic(auto, unfolding(crate::specs::Figures::figures_of))]
pub fn figures_of(rule: Rule, judge: Judge, lines: Record, spare: u16, d: u32) -> Figures
    ensures { result ≡ figures_of rule judge (record { lines = lines; spare = spare }) d }
{
    figures_in(rule, rows_of(judge, lines, spare, d))
}
