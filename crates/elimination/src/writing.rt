// The bytes of the plan: an FF for each child of a table, the table, and its children's plans in rising number.
ghost use Rattle.std.specs.Prelude.{◌≡◌, length, replicate, ◌+◌, ◌≤◌};

// How the tables hang: the table under which each hangs, where it does, and how many tables there are.
#[derive(Clone, Copy)]
pub(crate) struct Hung<'a> {
    pub(crate) parents: &'a [Option<usize>; 16],
    pub(crate) count: usize,
    ghost few: { count ≤ 16 },
    ghost sized: { length parents.now ≡ 16 },
}

impl Hung<'_> {
    ghost use Rattle.elimination.specs.Writing.{child_count, Wrote, Writable, PlanWrote};

    // How many tables hang under t.
    fn children(&self, t: usize) -> usize
        ensures { result ≡ child_count self.now.parents.now t self.now.count }
    {
        let parents = self.parents;
        parents[..self.count]
            .iter()
            .filter(|parent| **parent == Some(t))
            .count()
    }

    // An FF for each child of t, from an index on; the index behind them.
    fn write_joins(&self, t: usize, code: &mut [u8; 31], at: usize) -> usize
        requires { at + child_count self.now.parents.now t self.now.count ≤ 31 }
        ensures { Wrote code.old at (replicate (child_count self.now.parents.now t self.now.count) 255) code.new result }
    {
        let end = at + self.children(t);
        code[at..end].fill(255);
        end
    }

    // The plan of t and of what hangs under it, from an index on: an FF for each child, the table, and its children's plans in
    // rising number. The index behind it. The bytes and the index are lent apart: the contract speaks of both.
    pub(crate) fn write_plan(&self, t: usize, code: &mut [u8; 31], at: usize) -> usize
        requires { Writable self.now.parents.now self.now.count t at }
        ensures { PlanWrote self.now.parents.now self.now.count t code.old at code.new result }
    {
        let mut next = self.write_joins(t, code, at);
        code[next] = t as u8;
        next += 1;
        for c in 0..self.count {
            if self.parents[c] == Some(t) {
                next = self.write_plan(c, code, next);
            }
        }
        next
    }
}
