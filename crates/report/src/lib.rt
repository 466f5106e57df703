// What the programs read, and what they print of a call: document 01's lines.
//
// No contract can say what is written. Each row is taken from what is left of the output, so nothing rests on what the join promises.
#![tactic(auto)]

ghost use Rattle.report.specs.Calls.{Called};

mod reading;
mod text;

use join::Joined;
pub use reading::read_file;
use std::fmt::Write;
use text::{Rows, Text};

// Prints the rows and the steps: entries, lookups, comparisons and visits.
fn print_joined(rows: Rows<'_>, joined: Joined) {
    let steps = [
        joined.entries,
        joined.lookups,
        joined.comparisons,
        joined.visits,
    ];
    let mut text = Text::new();
    text.line(b"rows", &[rows.count as u64]);
    let _ = write!(text, "{rows}");
    text.line(b"steps", &steps);
    text.finish();
}

// Prints one line, a word and numbers. It is lent nothing to change and gives nothing back, so there is no outcome to state.
pub fn line(word: &[u8], numbers: &[u64]) {
    let mut text = Text::new();
    text.line(word, numbers);
    text.finish();
}

// Prints a refusal, by the number that the documents know it by. A public function: it stays as it was, number and detail.
pub fn refuse(number: u32, detail: usize) {
    line(b"refused", &[u64::from(number), detail as u64]);
}

// Joins a file and prints the answer: the rows and the steps, or the refusal.
pub fn report(file: &[u8], scratch: &mut [u32], output: &mut [u32])
    ensures { Called file.now scratch.old output.old scratch.new output.new }
{
    match join::join(file, scratch, output) {
        Ok(joined) => {
            let rows = Rows {
                output,
                count: joined.rows,
                width: tables::width(file),
            };
            print_joined(rows, joined);
        }
        Err(refusal) => refuse(refusal.number(), refusal.detail),
    }
}
