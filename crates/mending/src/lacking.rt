// Answer 9: a join has a side where no table holds its join attributes.
ghost use Rattle.std.specs.Prelude.{◌≡◌, ◌≤◌, length};
ghost use Rattle.std.specs.List.{list_any};
ghost use Rattle.mending.specs.Parts.{JoinAsked};
ghost use Rattle.mending.specs.Hanging.{held_by};
ghost use Rattle.mending.specs.Lacking.{LackAsked, SideHolds, BothHold, FirstLack};

use crate::hanging::holds;
use crate::parts::{Hand, Side, Survey, is_table};

// Whether one of the bytes is a table that holds the key.
fn any_holds(bytes: &[u8], key: u32, masks: &[u32; 16]) -> bool
    ensures { result ≡ list_any (held_by masks.now key) bytes.now }
{
    bytes.iter().any(|b| holds(masks, key, *b))
}

impl Survey<'_> {
    // Whether a table of the side holds the join attributes.
    fn side_holds(&self, side: Side) -> bool
        requires { (side.start ≤ side.end) × (side.end ≤ length self.now.code.now) }
        ensures { SideHolds self.now.code.now self.now.masks.now side result }
    {
        any_holds(&self.code[side.start..side.end], side.key, self.masks)
    }

    // Whether both sides of the join at an index have such a table.
    fn both_hold(&self, at: usize) -> bool
        requires { JoinAsked self.now at }
        ensures { BothHold self.now.code.now self.now.masks.now at result }
    {
        let left = self.side(at, Hand::Left);
        let right = self.side(at, Hand::Right);
        self.side_holds(left) && self.side_holds(right)
    }

    // The first FF, in the plan at an index, whose join has a side without such a table. The bytes spell a plan: what is no table
    // number is an FF.
    pub(crate) fn first_lacking(&self, at: usize) -> Option<usize>
        requires { LackAsked self.now at }
        ensures { FirstLack self.now.code.now self.now.masks.now at result }
    {
        if is_table(self.code[at]) {
            return None;
        }
        if !self.both_hold(at) {
            return Some(at);
        }
        let left = self.first_lacking(at + 1);
        left.or(self.first_lacking(self.parts[at + 1].next))
    }
}
