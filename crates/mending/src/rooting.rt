// Tree building for a root and best-root search call each other: the tree of a plan for a root asks for the best root of the other
// side, and that question builds trees again, each of a smaller subplan. A tree is kept as the roots that are chosen in it. A side's root
// depends on the join and the side alone, so each is searched for once and remembered with what it costs. A root is the index of its byte.
ghost use Rattle.std.specs.Prelude.{◌≡◌, ◌<◌};
ghost use Rattle.mending.specs.Rooting.{better_of, rows_added, TreeAsked, TreeBuilt, RootAsked, RootFound};

use crate::hanging::holds;
use crate::parts::{Hand, Survey, is_table};

// A table that may be a root, by the index of its byte, and what it costs.
#[derive(Clone, Copy)]
pub struct Candidate {
    pub place: usize,
    pub cost: usize,
}

// By slot, the root of a side of a join, where it is known.
pub type Memory = [Option<Candidate>; 64];

// The cheaper one, where there is one so far; of equals the first.
pub(crate) fn better(pick: Option<Candidate>, next: Candidate) -> Candidate
    ensures { result ≡ better_of pick next }
{
    match pick {
        Some(first) if first.cost <= next.cost => first,
        _ => next,
    }
}

// "When the root lies right, the row count of the left side's chosen root; else nothing."
fn rows_added(rows: &[usize; 16], root: u8, hand: Hand) -> usize
    requires { root < 16 }
    ensures { result ≡ rows_added rows.now hand root }
{
    match hand {
        Hand::Left => rows[words::index(root)],
        Hand::Right => 0,
    }
}

impl Survey<'_> {
    // The penalty of the tree of the plan at an index for this root.
    #[cycle(best_root_tree_for)]
    pub(crate) fn tree_for(&self, at: usize, place: usize, best: &mut Memory) -> usize
        requires { TreeAsked self.now best.old at place }
        ensures { TreeBuilt self.now best.new at place result }
    {
        if is_table(self.code[at]) {
            return 0;
        }
        let hand = self.hand_of(at, place);
        let side = self.side(at, hand);
        let own = self.tree_for(side.start, place, &mut *best);
        let other = self.best_root(at, hand.other(), best);
        own + other.cost
    }

    // The root of the left or the right side of the join at an index: the cheapest table there that holds the join attributes, and what
    // it costs, any row count it adds at this join included.
    #[cycle(best_root_tree_for)]
    pub(crate) fn best_root(&self, at: usize, hand: Hand, best: &mut Memory) -> Candidate
        requires { RootAsked self.now best.old at }
        ensures { RootFound self.now best.new at hand result }
    {
        let side = self.side(at, hand);
        if let Some(known) = best[side.slot] {
            return known;
        }
        let mut pick = None;
        for place in side.start..side.end {
            let t = self.code[place];
            if holds(self.masks, side.key, t) {
                let cost = self.tree_for(side.start, place, &mut *best)
                    + rows_added(self.rows, t, hand);
                pick = Some(better(pick, Candidate { place, cost }));
            }
        }
        best[side.slot] = pick;
        pick.unwrap()
    }
}
