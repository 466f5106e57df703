// The parts of a plan: the plans inside it, surveyed once; and the two sides of a join.
ghost use Rattle.std.specs.Prelude.{◌≡◌, ℕ, ltb};
ghost use Rattle.semantics.specs.Plans.{Plan};
ghost use Rattle.mending.specs.Places.{PlanAt, Planned};
ghost use Rattle.mending.specs.Parts.{MaskWords, Parted, Surveyed, Spanned, JoinAsked, SideFor, SideWithin, HandFor, other_hand};

// Plan bytes 0 to 15 are tables.
pub(crate) fn is_table(b: u8) -> bool
    ensures { result ≡ ltb b 16 }
{
    match b {
        0..=15 => true,
        _ => false,
    }
}

// A plan inside the plan: the attributes of its tables, and the index behind it.
#[derive(Clone, Copy)]
pub struct Part {
    pub attributes: u32,
    pub next: usize,
}

// The left or the right side of a join.
#[derive(Clone, Copy, Debug, PartialEq, Eq)]
pub enum Hand {
    Left,
    Right,
}

impl Hand {
    // The hand across the join.
    pub(crate) fn other(self) -> Hand
        ensures { result ≡ other_hand self }
    {
        match self {
            Hand::Left => Hand::Right,
            Hand::Right => Hand::Left,
        }
    }
}

// A side of a join: where its plan begins and ends, the join attributes, and where its root is remembered.
#[derive(Clone, Copy)]
pub struct Side {
    pub start: usize,
    pub end: usize,
    pub key: u32,
    pub slot: usize,
}

// A plan that was sent, surveyed: its bytes, the masks and row counts of the tables, and by index the plan that begins there. What is
// remembered of roots is lent beside it: behind a `&mut self` each contract would have to promise besides that the plan stays.
#[derive(Clone, Copy)]
pub struct Survey<'a> {
    pub code: &'a [u8],
    pub masks: &'a [u32; 16],
    pub rows: &'a [usize; 16],
    pub parts: [Part; 31],
}

// The plan that begins at an index, for tables with these masks. The bytes spell a plan: what is no table number is an FF.
pub(crate) fn part_at(code: &[u8], masks: &[u32; 16], at: usize) -> Part
    requires { MaskWords masks.now × Planned code.now at }
    ensures { (p : Plan) (e : ℕ) → PlanAt code.now at p e → Parted masks.now p e result }
{
    let b = code[at];
    if is_table(b) {
        return Part {
            attributes: masks[words::index(b)],
            next: at + 1,
        };
    }
    let left = part_at(code, masks, at + 1);
    let right = part_at(code, masks, left.next);
    Part {
        attributes: left.attributes | right.attributes,
        next: right.next,
    }
}

// By index, the plan that begins there: where it ends, and the attributes of its tables.
pub(crate) fn parts_of(code: &[u8], masks: &[u32; 16]) -> [Part; 31]
    requires { MaskWords masks.now × Spanned code.now }
    ensures { Surveyed code.now masks.now result }
{
    let nowhere = Part {
        attributes: 0,
        next: 0,
    };
    let mut parts = [nowhere; 31];
    for i in 0..code.len() {
        parts[i] = part_at(code, masks, i);
    }
    parts
}

impl Survey<'_> {
    // The left or the right side of the join at an index.
    pub(crate) fn side(&self, at: usize, hand: Hand) -> Side
        requires { JoinAsked self.now at }
        ensures sided { SideFor self.now at hand result }
        ensures within { SideWithin self.now.code.now result }
    {
        let left = self.parts[at + 1];
        let right = self.parts[left.next];
        let key = left.attributes & right.attributes;
        match hand {
            Hand::Left => Side {
                start: at + 1,
                end: left.next,
                key,
                slot: 2 * at + 1,
            },
            Hand::Right => Side {
                start: left.next,
                end: right.next,
                key,
                slot: 2 * at,
            },
        }
    }

    // The side of the join at an index in which a place lies.
    pub(crate) fn hand_of(&self, at: usize, place: usize) -> Hand
        requires { JoinAsked self.now at }
        ensures { HandFor self.now at place result }
    {
        if place < self.parts[at + 1].next {
            Hand::Left
        } else {
            Hand::Right
        }
    }
}
