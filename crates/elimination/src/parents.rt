// The tables that remain, and the one of them under which a table hangs: the lowest-numbered other one that has all attributes it shares
// with them.
ghost use Rattle.std.specs.Prelude.{◌≡◌, ◌<◌, ◌≤◌};
ghost use Rattle.elimination.specs.Parents.{OthersHave, first_covering, parent_found, ParentIn};

// The tables that remain: the masks of all tables, which of them remain, and how many tables there are.
#[derive(Clone, Copy)]
pub(crate) struct Remaining<'a> {
    pub(crate) masks: &'a [u32; 16],
    pub(crate) flags: [bool; 16],
    pub(crate) count: usize,
    ghost few: { count ≤ 16 },
}

impl Remaining<'_> {
    ghost use Rattle.elimination.specs.Remain.{tables_of};

    // The attributes of the remaining tables but t.
    fn others(&self, t: usize) -> u32
        ensures { OthersHave self.now.masks.now (tables_of self.now) t result }
    {
        let mut have = 0;
        for u in 0..self.count {
            if self.flags[u] && u != t {
                have |= self.masks[u];
            }
        }
        have
    }

    // The lowest-numbered of the remaining tables but t that has these attributes.
    fn first_covering(&self, t: usize, shared: u32) -> Option<usize>
        ensures { result ≡ parent_found (first_covering self.now.masks.now (tables_of self.now) t shared) }
    {
        for c in 0..self.count {
            if self.flags[c] && c != t && shared & self.masks[c] == shared {
                return Some(c);
            }
        }
        None
    }

    // The table under which t hangs.
    pub(crate) fn parent_of(&self, t: usize) -> Option<usize>
        requires { t < 16 }
        ensures { ParentIn self.now.masks.now (tables_of self.now) t result }
    {
        self.first_covering(t, self.masks[t] & self.others(t))
    }
}
