// Results by number for callers in C and in other languages: include/pigrozd.h declares what is here. The crate capi_access has what
// it does.
#![tactic(auto)]

ghost use Rattle.capi_access.specs.Calls.{ResultCalls, NumberCalls};

use capi_access::{pigrozd_number_answer, pigrozd_result_answer};

// Result number n of a file: capi_access::pigrozd_result_at.
#[unsafe(no_mangle)]
pub extern "C" fn pigrozd_result_at(
    file: &[u8],
    scratch: &mut [u32],
    n: u64,
    row: &mut [u32],
) -> pigrozd_result_answer
    ensures { ResultCalls file.now scratch.old row.old n
        scratch.new row.new result }
{
    capi_access::pigrozd_result_at(file, scratch, n, row)
}

// The number of the result that has these row numbers and copies: capi_access::pigrozd_number_of.
#[unsafe(no_mangle)]
pub extern "C" fn pigrozd_number_of(
    file: &[u8],
    scratch: &mut [u32],
    rows: &[u32],
    copies: &[u32],
) -> pigrozd_number_answer
    ensures { NumberCalls file.now scratch.old rows.now copies.now
        scratch.new result }
{
    capi_access::pigrozd_number_of(file, scratch, rows, copies)
}
