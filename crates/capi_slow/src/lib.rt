// The slow engine with its answer in numbers, as include/pigrozd.h declares it. The crate capi_slow_c exports it to C.
#![tactic(auto)]

ghost use Rattle.capi_slow.specs.Calls.{SlowCalls};

// The answer of a call as request U5's three numbers.
#[repr(C)]
#[derive(Clone, Copy)]
pub struct pigrozd_slow_answer {
    pub number: u64,
    pub detail: u64,
    pub rows: u64,
}

// Joins the tables of a file by going through every choice: exhaustive::join_by_choices, its answer as numbers.
pub fn pigrozd_slow_join(file: &[u8], output: &mut [u32]) -> pigrozd_slow_answer
    ensures { SlowCalls file.now output.old output.new result }
{
    match exhaustive::join_by_choices(file, output) {
        Ok(rows) => pigrozd_slow_answer {
            number: 0,
            detail: 0,
            rows: rows as u64,
        },
        Err(refusal) => pigrozd_slow_answer {
            number: u64::from(refusal.number()),
            detail: refusal.detail as u64,
            rows: 0,
        },
    }
}
