// The plan that the join follows where it is not the one sent: the one sent, mended, or the one found where none was sent; answers 9 and
// 14. Its length is given; its bytes stand at the front of the buffer.
ghost use Rattle.plans.specs.Admissions.{NamedFor};
ghost use Rattle.plans.specs.Forming.{FormableFor, PlanlessFor, MendedFor, FoundFor, FormedFor};

use refusals::Refusal;
use tables::Catalog;

// The plan sent, mended, or 9.
fn mended_plan(code: &[u8], catalog: &Catalog, out: &mut [u8; 31]) -> Result<usize, Refusal>
    requires { NamedFor code.now catalog.now }
    ensures { MendedFor catalog.now code.now result out.new }
{
    mending::mend(code, &catalog.masks, &catalog.rows, out)?;
    Ok(code.len())
}

// The plan found for tables without one, or 14.
#[tactic(auto, using(crate::proofs::Formed::found_formed))]
fn found_plan(catalog: &Catalog, out: &mut [u8; 31]) -> Result<usize, Refusal>
    requires { PlanlessFor catalog.now }
    ensures { FoundFor catalog.now result out.new }
{
    elimination::find_plan(&catalog.masks, catalog.count, out)
}

// Either, by whether a plan was sent.
pub(crate) fn formed_plan(
    code: &[u8],
    catalog: &Catalog,
    out: &mut [u8; 31],
) -> Result<usize, Refusal>
    requires { FormableFor code.now catalog.now }
    ensures { FormedFor catalog.now code.now result out.new }
{
    if code.is_empty() {
        found_plan(catalog, out)
    } else {
        mended_plan(code, catalog, out)
    }
}
