// Answer 7: the bytes spell one plan.
ghost use Rattle.std.specs.Prelude.{◌≡◌, ◌+◌, ◌<◌};
ghost use Rattle.semantics.specs.Plans.{misplaced};
ghost use Rattle.refusals.specs.Refusals.{refused_at, refusal_of};
ghost use Rattle.plans.specs.Spelling.{PlanRead};

use refusals::{Reason, Refusal};

// The plan that begins at an index: a table number, or FF, a left plan and a right plan. The index behind it, or that of the first byte
// that cannot stand there. Each FF is a call inside a call: an index alone is handed back, which takes no place on the stack.
fn read_plan(code: &[u8], at: usize) -> Result<usize, usize>
    ensures { PlanRead code.now at result }
{
    match code.get(at) {
        Some(0..=15) => Ok(at + 1),
        Some(255) => {
            let middle = read_plan(code, at + 1)?;
            read_plan(code, middle)
        }
        _ => Err(at),
    }
}

// The refusal for the byte at an index.
fn not_a_plan(at: usize) -> Refusal
    ensures { result ≡ refusal_of 7 at }
{
    Refusal {
        reason: Reason::NotAPlan,
        detail: at,
    }
}

// Whether the bytes spell one plan; else the first byte that cannot stand where it stands, or the end where the plan ends early.
pub(crate) fn check_spelling(code: &[u8]) -> Result<(), Refusal>
    ensures { result ≡ refused_at 7 (misplaced 1 0 code.now) }
{
    match read_plan(code, 0) {
        Ok(end) if end < code.len() => Err(not_a_plan(end)),
        Ok(_) => Ok(()),
        Err(place) => Err(not_a_plan(place)),
    }
}
