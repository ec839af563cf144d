// Refusals: the rows of document 01's table "Where each refusal is found" and of document 02's orders, and the answers that carry one.

#![tactic(auto)]

ghost use Rattle.std.specs.Prelude.{◌≡◌};
ghost use Rattle.refusals.specs.Rows.{row_number};

// A row of the table, with the number that the paper gives it. The paper's words stand in specs/Rows.antt.
#[derive(Clone, Copy)]
pub enum Row {
    Text = 1,
    FirstLine = 2,
    Labels = 3,
    Buffers = 4,
    Fields = 5,
    Kind = 6,
    Form = 7,
    Structure = 8,
    Uses = 9,
    Argument = 10,
    Level = 11,
    Duplicate = 12,
    Head = 13,
    Later = 14,
    Target = 15,
    Cycle = 16,
    Listed = 17,
    Early = 18,
    // Order 4's: a list of pairs, the label of one, its number.
    Pairs = 19,
    PairLabel = 20,
    PairNumber = 21,
}

impl Row {
    // Its number.
    pub fn number(self) -> u64
        ensures { result ≡ row_number self }
    {
        self as u64
    }

    // The refusal by this row at a place.
    pub fn at(self, place: u64) -> Refusal
        ensures { (result.row ≡ self) × (result.place ≡ place) }
    {
        Refusal { row: self, place }
    }
}

// A refusal: the row that finds it, and its place.
#[derive(Clone, Copy)]
pub struct Refusal {
    pub row: Row,
    pub place: u64,
}

// What a pass finds: nothing, or a refusal.
pub type Verdict = Result<(), Refusal>;

// What a call answers: a count, or a refusal.
pub type Reply = Result<u64, Refusal>;
