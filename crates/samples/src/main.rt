// Joins each sample that the arguments name, in their order, with both engines, and prints its name, the answers, and what the
// buffers hold afterwards; then results by their numbers, with the way back. A sample is a file of data/: two 4-byte numbers, the words
// of scratch and of output to lend, and then the file to join. tests/make_samples.py writes the samples, the arguments and the output
// expected.
#![tactic(auto)]

ghost use Rattle.std.specs.Prelude.{◌≤◌, length};

mod asking;
mod showing;

use asking::Asking;
use showing::{Output, Scratch, Stdout};
use std::env;
use std::fmt::Write;
use std::fs::File;
use std::io::Read;
use std::rt::Files;

// What every word of the buffers holds before a call. No sample has it as a value.
const BEFORE: u32 = 2779096485;

// The slow engine, with an output of its own; `joined` is what the join left.
fn try_choices(file: &[u8], joined: &[u32], output: &mut [u32]) {
    let answer = capi_slow::pigrozd_slow_join(file, output);
    let output: &[u32] = output;
    let is_as = if joined == output { "as" } else { "not as" };
    let _ = writeln!(
        Stdout,
        "slow {} {} {}, {}, {is_as} the join's",
        answer.number,
        answer.detail,
        answer.rows,
        Output(output)
    );
}

// Lends as many words as the sample says to both engines, and shows what the buffers hold after the join and the slow engine beside it;
// then results by number.
fn join_sample(sample: &[u8], scratch: &mut [u32], joined: &mut [u32], slow: &mut [u32]) {
    let Some((lent, file)) = sample.split_at_checked(8) else {
        let _ = writeln!(Stdout, "no sample");
        return;
    };
    let m = words::word_index(words::word(lent, 0));
    let n = words::word_index(words::word(lent, 4));
    if scratch.len() < m || joined.len() < n || slow.len() < n {
        let _ = writeln!(Stdout, "too many words");
        return;
    }
    let scratch = &mut scratch[..m];
    let joined = &mut joined[..n];
    let slow = &mut slow[..n];
    report::report(file, scratch, joined);
    let _ = writeln!(Stdout, "{}, {}", Scratch(scratch), Output(joined));
    try_choices(file, joined, slow);
    let mut asking = Asking {
        file,
        scratch,
        row: slow,
    };
    asking.show_results();
}

// Reads until the buffer is full, the file ends or a read fails, and returns how many bytes stand at the front of the buffer then.
// How many reads that takes is the file's affair, so the loop goes over no range.
fn read_full(file: &mut impl Read, buf: &mut [u8]) -> usize
    ensures { result ≤ length buf.new }
{
    let mut done = 0;
    while done < buf.len() {
        match file.read(&mut buf[done..]) {
            Ok(n) if n > 0 => done += n,
            _ => break,
        }
    }
    done
}

fn join_file(file: &mut impl Read) {
    let mut sample = [0u8; 65544];
    let mut scratch = [BEFORE; 65536];
    let mut joined = [BEFORE; 65536];
    let mut slow = [BEFORE; 65536];
    let n = read_full(file, &mut sample);
    join_sample(&sample[..n], &mut scratch, &mut joined, &mut slow);
}

// Prints the name of a sample, and joins it. A sample that cannot be opened is named on standard error, with the reason.
fn join_argument(rt: &(impl Files + Eprint), name: &str) {
    let _ = writeln!(Stdout, "{name}");
    match File::open(rt, name) {
        Ok(mut file) => join_file(&mut file),
        Err(error) => {
            let _ = eprintln!(rt; "{name}: {error}");
        }
    }
}

fn main(rt: HostRuntime) -> std::io::Result<()> {
    for name in env::args(&rt)?.skip(1) {
        join_argument(&rt, name.as_str());
    }
    Ok(())
}
