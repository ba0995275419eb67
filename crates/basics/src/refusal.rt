// Why a call is refused (document 01's table of refusals). Each public entry that can refuse answers one of these, which carry the table's numbers.

ghost use Rattle.std.specs.Prelude.{◌≡◌};
ghost use Rattle.basics.specs.Answers.{refusal_number};

#[derive(Clone, Copy, Debug, PartialEq, Eq)]
pub enum Refusal {
    // a recording, a table or an account of a wrong length
    Length = 1,
    // a slot or a block that there isn't, or a field wider than its bits
    Place = 2,
    // a hold limit, a node's words or spare bits that aren't lawful
    Value = 3,
    // a START's code with no meaning, or an address not aligned to its unit
    Code = 4,
    // a state or a tally outside its bounds
    Bounds = 5,
    // fewer than sixteen bytes from the offset
    Room = 6,
    // a cache block that isn't coherent
    Incoherent = 7,
    // more than 2^30 records
    TooMany = 8,
    // no marks, or more than 32
    Marks = 9,
}

impl Refusal {
    // The table's number.
    pub fn number(self) -> u8
        ensures { result ≡ refusal_number self }
    {
        self as u8
    }
}
