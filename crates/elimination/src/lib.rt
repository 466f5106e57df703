// Request U4, "files without a plan": the bytes of the plan that is found for tables whose file gives none. Loops over tables alone; no
// attribute value is read.
#![tactic(auto)]

mod parents;
mod steps;
mod writing;

ghost use Rattle.std.specs.Prelude.{◌<◌, ◌≤◌};
ghost use Rattle.elimination.specs.Steps.{Shaped};
ghost use Rattle.elimination.specs.Searches.{Searched};

use crate::steps::hang_all;
use crate::writing::Hung;
use refusals::Refusal;

// The plan that is found for that many tables with these masks: its length; its bytes stand at the front of the lent ones. Where none is,
// the refusal has the lowest number of a table that remains, and the lent bytes are as they were.
pub fn find_plan(masks: &[u32; 16], count: usize, out: &mut [u8; 31]) -> Result<usize, Refusal>
    requires { Shaped masks.now × (0 < count) × (count ≤ 16) }
    ensures { Searched masks.now count out.old out.new result }
{
    let mut parents = [None; 16];
    let root = hang_all(masks, count, &mut parents)?;
    let hung = Hung {
        parents: &parents,
        count,
    };
    Ok(hung.write_plan(root, out, 0))
}
