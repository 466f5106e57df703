// The join with its answer in numbers, as include/pigrozd.h declares it. The crate capi_c exports it to C.
#![tactic(auto)]

ghost use Rattle.capi.specs.Calls.{Calls};

// The answer of a call as document 01's seven numbers.
#[repr(C)]
#[derive(Clone, Copy)]
pub struct pigrozd_answer {
    pub number: u64,
    pub detail: u64,
    pub rows: u64,
    pub entries: u64,
    pub lookups: u64,
    pub comparisons: u64,
    pub visits: u64,
}

// Joins the tables of a file by its plan: join::join, its answer as numbers, as C has it.
pub fn pigrozd_join(file: &[u8], scratch: &mut [u32], output: &mut [u32]) -> pigrozd_answer
    ensures { Calls file.now scratch.old output.old scratch.new output.new result }
{
    match join::join(file, scratch, output) {
        Ok(joined) => pigrozd_answer {
            number: 0,
            detail: 0,
            rows: joined.rows as u64,
            entries: joined.entries,
            lookups: joined.lookups,
            comparisons: joined.comparisons,
            visits: joined.visits,
        },
        Err(refusal) => pigrozd_answer {
            number: u64::from(refusal.number()),
            detail: refusal.detail as u64,
            rows: 0,
            entries: 0,
            lookups: 0,
            comparisons: 0,
            visits: 0,
        },
    }
}
