// The repeated step: the lowest-numbered table that can be hung is hung, until one is left or none can be.
ghost use Rattle.std.specs.Prelude.{◌≡◌, ◌<◌, ◌≤◌, set, replicate, false, IfSome};
ghost use Rattle.semantics.specs.Elimination.{lowest};
ghost use Rattle.elimination.specs.Remain.{tables_of};
ghost use Rattle.elimination.specs.Steps.{NextIn, Shaped, HungAll};

use crate::parents::Remaining;
use refusals::{Reason, Refusal};

impl Remaining<'_> {
    // The lowest-numbered remaining table that can be hung, and the one under which it hangs.
    fn next_hanging(&self) -> Option<(usize, usize)>
        ensures next { NextIn self.now.masks.now (tables_of self.now) result }
        ensures small { IfSome result (λ x. x.0 < 16) }
    {
        for t in 0..self.count {
            if self.flags[t]
                && let Some(parent) = self.parent_of(t)
            {
                return Some((t, parent));
            }
        }
        None
    }

    // The lowest-numbered table that remains.
    fn lowest(&self) -> usize
        ensures { result ≡ lowest (tables_of self.now) }
    {
        self.flags[..self.count]
            .iter()
            .position(|remains| *remains)
            .unwrap_or(0)
    }

    // A table is hung: it no longer remains.
    fn remove(&mut self, t: usize)
        requires { t < 16 }
        ensures { (self.new.masks ≡ self.old.masks) × (self.new.flags ≡ set self.old.flags t false) × (self.new.count ≡ self.old.count) }
    {
        self.flags[t] = false;
    }
}

// All tables but one hung, as far as they can be: the root, and the parents of the others, which all have none before; or, where none can
// be, the refusal with the lowest table that remains.
pub(crate) fn hang_all(
    masks: &[u32; 16],
    count: usize,
    parents: &mut [Option<usize>; 16],
) -> Result<usize, Refusal>
    requires { Shaped masks.now × (0 < count) × (count ≤ 16) × (parents.old ≡ replicate 16 None) }
    ensures { HungAll masks.now count result parents.new }
{
    let mut rest = Remaining {
        masks,
        flags: [true; 16],
        count,
    };
    for _ in 1..count {
        let Some((child, parent)) = rest.next_hanging() else {
            let detail = rest.lowest();
            return Err(Refusal {
                reason: Reason::NoPlanFound,
                detail,
            });
        };
        rest.remove(child);
        parents[child] = Some(parent);
    }
    Ok(rest.lowest())
}
