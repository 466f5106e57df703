// The program of acceptance days: joins the file on standard input with both engines, each with an output of its own, and prints
// whether they agree.
#![tactic(auto)]

mod comparing;

use comparing::{Compared, Comparison, compare};

// One line: the answer that both gave, or the two, the join's first. Refusals are printed by the same line of `report`.
fn print(compared: Compared) {
    let Compared {
        joined,
        slow,
        comparison,
    } = compared;
    let both = [
        joined.number,
        joined.detail,
        joined.rows,
        slow.number,
        slow.detail,
        slow.rows,
    ];
    match comparison {
        Comparison::Same => report::line(b"same", &both[..3]),
        Comparison::Skipped => report::line(b"skipped", &both),
        Comparison::Differ => report::line(b"differ", &both),
    }
}

fn main() {
    let mut bytes = [0u8; 65537];
    let Some(file) = report::read_file(&mut bytes) else {
        return;
    };
    let mut scratch = [0u32; 16384];
    let mut joined = [0u32; 16384];
    let mut slow = [0u32; 16384];
    print(compare(file, &mut scratch, &mut joined, &mut slow));
}
