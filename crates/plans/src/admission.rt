// Whether a file is within the rules and the scratch is long enough: answers 1 to 10, 14 and 19, or the catalog and the schedule that the
// rest of the join works on. No attribute value is read here.
ghost use Rattle.std.specs.Prelude.{◌≡◌, List, ◌<◌};
ghost use Rattle.semantics.specs.Files.{Table};
ghost use Rattle.plans.specs.Admissions.{Tabled, Catalogued, asks_for, check_of, Accepted, decided_in, decided_of, FollowedBy};
ghost use Rattle.plans.specs.Admissions.{FormedBy, RuledBy};
ghost use Rattle.plans.specs.Forming.{FormableFor};
ghost use Rattle.scheduling.specs.Schedules.{no_schedule};
ghost use Rattle.tables.specs.Catalogs.{contents_of};

use crate::behaviour::is_well_behaved;
use crate::forming::formed_plan;
use crate::naming::check_naming;
use crate::spelling::check_spelling;
use refusals::{Reason, Refusal};
use scheduling::{Schedule, schedule_of, words_needed};
use tables::{Catalog, Contents};

// Which plan is followed, where 7 and 8 are not due: the one sent, or one that is formed, since it is not well-behaved or there is none.
#[derive(Clone, Copy, Debug, PartialEq, Eq)]
pub enum Followed {
    AsSent,
    Formed,
}

// Whether the file is admitted, and the tables read before that is decided.
#[derive(Clone, Copy)]
pub struct Admission {
    pub verdict: Result<(), Refusal>,
    pub catalog: Catalog,
}

// Whether the plan's bytes ask for a plan: there are none of them, and there are tables.
fn asks_for_plan(code: &[u8], count: usize) -> bool
    ensures { result ≡ asks_for count code.now }
{
    if code.len() == 0 { 0 < count } else { false }
}

// Answers 7 and 8, in this order, for the plan's bytes and the tables of a file; else which plan is followed.
fn check_plan(code: &[u8], catalog: &Catalog) -> Result<Followed, Refusal>
    requires { Catalogued catalog.now }
    ensures { (ts : List Table) → Tabled catalog.now ts → result ≡ check_of ts code.now }
{
    let count = catalog.count;
    if asks_for_plan(code, count) {
        return Ok(Followed::Formed);
    }
    check_spelling(code)?;
    check_naming(code, count)?;
    if is_well_behaved(code, &catalog.masks) {
        Ok(Followed::AsSent)
    } else {
        Ok(Followed::Formed)
    }
}

// The schedule of the plan that the join follows, or 10 where the scratch has too few words. Nothing is scheduled before, and after 10.
fn with_scratch(
    code: &[u8],
    catalog: &Catalog,
    words: usize,
    schedule: &mut Schedule,
) -> Result<(), Refusal>
    requires { Accepted code.now catalog.now × (schedule.old ≡ no_schedule) }
    ensures { FollowedBy catalog.now code.now words result schedule.new }
{
    schedule_of(code, &catalog.masks, &catalog.rows, &mut *schedule);
    let first = schedule.order[0];
    let need = words_needed(schedule.used, catalog.rows[first]);
    if words < need {
        *schedule = Schedule::new();
        return Err(Refusal {
            reason: Reason::ScratchShort,
            detail: need,
        });
    }
    Ok(())
}

// Answers 9, 10 and 14 for a plan that is formed: the formed one is followed.
fn with_formed(
    code: &[u8],
    catalog: &Catalog,
    words: usize,
    schedule: &mut Schedule,
) -> Result<(), Refusal>
    requires { FormableFor code.now catalog.now × (schedule.old ≡ no_schedule) }
    ensures { FormedBy catalog.now code.now words result schedule.new }
{
    let mut bytes = [0u8; 31];
    let n = formed_plan(code, catalog, &mut bytes)?;
    with_scratch(&bytes[..n], catalog, words, schedule)
}

// Answers 7 to 10 and 14 for the plan's bytes and the tables of a file.
fn admit_plan(
    code: &[u8],
    catalog: &Catalog,
    words: usize,
    schedule: &mut Schedule,
) -> Result<(), Refusal>
    requires { Catalogued catalog.now × (schedule.old ≡ no_schedule) }
    ensures { RuledBy catalog.now code.now words result schedule.new }
{
    match check_plan(code, catalog)? {
        Followed::AsSent => with_scratch(code, catalog, words, schedule),
        Followed::Formed => with_formed(code, catalog, words, schedule),
    }
}

// Answers 1 to 10, 14 and 19 for a file that is read.
fn rule(
    file: &[u8],
    contents: &Contents,
    words: usize,
    schedule: &mut Schedule,
) -> Result<(), Refusal>
    requires { (contents.now ≡ contents_of file.now) × (schedule.old ≡ no_schedule) }
    ensures { decided_in result contents.now.catalog schedule.new ≡ decided_of file.now words }
{
    let at = contents.end?;
    admit_plan(&file[at..], &contents.catalog, words, schedule)
}

// Answers 1 to 10, 14 and 19 for a file and a scratch of that many words, or the catalog and the schedule. Nothing is
// scheduled before, and where the file is refused.
pub fn admit(file: &[u8], words: usize, schedule: &mut Schedule) -> Admission
    requires { schedule.old ≡ no_schedule }
    ensures { decided_in result.verdict result.catalog schedule.new ≡ decided_of file.now words }
{
    let contents = tables::read(file);
    let verdict = rule(file, &contents, words, schedule);
    Admission {
        verdict,
        catalog: contents.catalog,
    }
}
