// The join for callers in C and in other languages: include/pigrozd.h declares what is here. The crate capi has what it does.
#![tactic(auto)]

ghost use Rattle.capi.specs.Calls.{Calls};

use capi::pigrozd_answer;

// Joins the tables of a file by its plan: capi::pigrozd_join.
#[unsafe(no_mangle)]
pub extern "C" fn pigrozd_join(
    file: &[u8],
    scratch: &mut [u32],
    output: &mut [u32],
) -> pigrozd_answer
    ensures { Calls file.now scratch.old output.old scratch.new output.new result }
{
    capi::pigrozd_join(file, scratch, output)
}
