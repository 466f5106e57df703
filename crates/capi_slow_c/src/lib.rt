// The slow engine for callers in C and in other languages: include/pigrozd.h declares what is here. The crate capi_slow has what it
// does.
#![tactic(auto)]

ghost use Rattle.capi_slow.specs.Calls.{SlowCalls};

use capi_slow::pigrozd_slow_answer;

// Joins the tables of a file by going through every choice: capi_slow::pigrozd_slow_join.
#[unsafe(no_mangle)]
pub extern "C" fn pigrozd_slow_join(file: &[u8], output: &mut [u32]) -> pigrozd_slow_answer
    ensures { SlowCalls file.now output.old output.new result }
{
    capi_slow::pigrozd_slow_join(file, output)
}
