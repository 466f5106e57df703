// Why a call is refused: the reason, by whose number the documents and C know it, and the detail that is given with it.
#![tactic(auto)]

ghost use Rattle.std.specs.Prelude.{◌≡◌};
ghost use Rattle.refusals.specs.Refusals.{number_of};

// The reasons. What a detail is, each says here. The number 12 is retired.
#[derive(Clone, Copy, Debug, PartialEq, Eq)]
pub enum Reason {
    // The file is cut off; the offset of the record that is cut.
    CutOff = 1,
    // None of the three marks stands here; the offset.
    NoRecord = 2,
    // A table with no attribute, or with more than 8; the offset of its record.
    AttributeCount = 3,
    // A table with more than 4,096 rows; the offset of its record.
    TooManyRows = 4,
    // A 17th table; the offset of its record.
    TooManyTables = 5,
    // Bytes stand behind the plan; the offset of the first.
    BehindPlan = 6,
    // The plan's bytes are not a plan; the index of the first that cannot stand there.
    NotAPlan = 7,
    // The plan does not name each table once; the index of the byte.
    NotNamedOnce = 8,
    // A join has a side where no table holds its join attributes; the index of its FF.
    NoHolder = 9,
    // The scratch is too short; the words needed.
    ScratchShort = 10,
    // More results than the output fits, or than can be numbered; how many, held.
    OutputShort = 11,
    // A program's input is too long; the bytes that it may have.
    InputLong = 13,
    // No plan can be found for these tables; the lowest number of a table that remains.
    NoPlanFound = 14,
    // More choices than the slow engine goes through; 0.
    TooManyChoices = 15,
    // There is no result of this number; how many there are.
    NoSuchResult = 16,
    // The row numbers and copies are those of no result; 0.
    NotAResult = 17,
    // The row buffer is shorter than the values of a row; how many these are.
    RowShort = 18,
    // A row of no copies, or of more than 65,535; the offset of its table's record.
    CopiesRange = 19,
}

// A refusal.
#[derive(Clone, Copy, Debug, PartialEq, Eq)]
pub struct Refusal {
    pub reason: Reason,
    pub detail: usize,
}

impl Refusal {
    // The number of the reason.
    pub fn number(self) -> u32
        ensures { result ≡ number_of self.reason }
    {
        self.reason as u32
    }
}
