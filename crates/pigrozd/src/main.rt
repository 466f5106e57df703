// Joins the file on standard input and prints the result.
#![tactic(auto)]

fn main() {
    let mut bytes = [0u8; 65537];
    let Some(file) = report::read_file(&mut bytes) else {
        return;
    };
    let mut scratch = [0u32; 16384];
    let mut output = [0u32; 16384];
    report::report(file, &mut scratch, &mut output);
}
