// Request U2, "mend the plans our optimiser sends": the bytes of the mended plan. No attribute value is read.
#![tactic(auto)]

mod hanging;
mod lacking;
mod parts;
mod rooting;
mod writing;

ghost use Rattle.std.specs.Prelude.{◌≡◌, length};
ghost use Rattle.mending.specs.Whole.{WholeAsked, WholeFound, Sent, MendsPlan};

use crate::parts::{Survey, is_table, parts_of};
use crate::rooting::{Candidate, Memory, better};
use refusals::{Reason, Refusal};

impl Survey<'_> {
    // "The overall root is the cheapest table": the index of its byte.
    fn whole_root(&self, best: &mut Memory) -> usize
        requires { WholeAsked self.now best.old }
        ensures { WholeFound self.now best.new result }
    {
        let mut pick = None;
        for place in 0..self.code.len() {
            if is_table(self.code[place]) {
                let cost = self.tree_for(0, place, &mut *best);
                pick = Some(better(pick, Candidate { place, cost }));
            }
        }
        pick.unwrap().place
    }
}

// The bytes of the mended plan, as many as the plan has, for tables with these masks and row counts; or the refusal whose detail is the
// first FF whose join has a side where no table holds its join attributes, and the buffer as it was.
pub fn mend(
    code: &[u8],
    masks: &[u32; 16],
    rows: &[usize; 16],
    out: &mut [u8; 31],
) -> Result<(), Refusal>
    requires { Sent code.now masks.now rows.now × (length out.old ≡ 31) }
    ensures { MendsPlan code.now masks.now rows.now out.old out.new result }
{
    let parts = parts_of(code, masks);
    let plan = Survey {
        code,
        masks,
        rows,
        parts,
    };
    if let Some(detail) = plan.first_lacking(0) {
        return Err(Refusal {
            reason: Reason::NoHolder,
            detail,
        });
    }
    let mut best: Memory = [None; 64];
    let root = plan.whole_root(&mut best);
    plan.write_tree(0, root, &mut best, out);
    Ok(())
}
