// The marks that are refused, and the bounds for refusal 5 (document 02, wish 1).
ghost use Rattle.std.specs.Prelude.{◌≡◌, ◌≤◌, ◌↔◌, IsTrue};
ghost use Rattle.std.specs.List.{All};
ghost use Rattle.phases.specs.Parts.{Named};
ghost use Rattle.marks.specs.State.{some_marks, named_to, lawful_marks, rises_to, phases_bounds};

use marks::{Mark, Marks, Phases};

// "1 to 32 marks".
pub(crate) fn some_marks(marks: Marks) -> bool
    ensures { result ≡ some_marks marks }
{
    (1 <= marks.count) & (marks.count <= 32)
}

// Whether the slots and the numbers of all these are 0 to 15.
fn each_named(marks: &[Mark]) -> bool
    ensures { IsTrue result ↔ All Named marks.now }
{
    marks
        .iter()
        .all(|mark| mark.slot <= 15 && mark.number <= 15)
}

// The same of the marks that are named.
pub(crate) fn all_named(marks: Marks) -> bool
    requires { marks.count ≤ 32 }
    ensures { result ≡ named_to marks marks.count }
{
    each_named(&marks.marks[..marks.count])
}

#[tactic(auto, unfolding(marks::specs::State::lawful_marks))]
fn lawful(marks: Marks) -> bool
    ensures { result ≡ lawful_marks marks }
{
    some_marks(marks) && all_named(marks)
}

// Whether the first spans are in order.
fn rises(spans: [u64; 32], found: usize) -> bool
    requires { found ≤ 32 }
    ensures { result ≡ rises_to spans found }
{
    spans[..found].is_sorted()
}

// The bounds for refusal 5: those of the judge in pieces; marks that would not be refused; no more found than there are, their spans in order.
#[tactic(auto, unfolding(marks::specs::State::phases_bounds))]
pub(crate) fn in_bounds(phases: Phases) -> bool
    ensures { result ≡ phases_bounds phases }
{
    let search = phases.search;
    let fits = stream::in_bounds(phases.stream)
        & lawful(phases.marks)
        & (search.found <= phases.marks.count);
    fits && rises(search.spans, search.found)
}
