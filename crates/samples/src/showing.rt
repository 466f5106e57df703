// What is shown, and where: what the buffers hold after a call, as text, and standard output.
use crate::BEFORE;
use std::fmt;
use std::fmt::{Display, Formatter, Write};

// The descriptor of standard output.
const STDOUT_FILENO: i32 = 1;

// Standard output. What cannot be written is lost, and what comes behind it is tried all the same, so no write fails.
#[derive(Drop)]
pub(crate) struct Stdout;

impl Write for Stdout {
    fn write_str(&mut self, s: &str) -> fmt::Result {
        io::write_all(STDOUT_FILENO, s.as_bytes());
        Ok(())
    }
}

// A scratch.
#[derive(Drop)]
pub(crate) struct Scratch<'a>(pub(crate) &'a [u32]);

// An output. The words written stand at the front, and the rest is as it was.
#[derive(Drop)]
pub(crate) struct Output<'a>(pub(crate) &'a [u32]);

// Numbers, a blank before each.
#[derive(Drop)]
pub(crate) struct Numbers<'a>(pub(crate) &'a [u32]);

fn all_are(words: &[u32], word: u32) -> bool {
    words.iter().all(|other| *other == word)
}

impl Display for Scratch<'_> {
    fn fmt<W: Write>(&self, f: &mut Formatter<W>) -> fmt::Result {
        let words = self.0;
        let state = if words.is_empty() {
            "empty"
        } else if all_are(words, 0) {
            "zero"
        } else if all_are(words, BEFORE) {
            "unchanged"
        } else {
            "neither zero nor unchanged"
        };
        write!(f, "scratch {state}")
    }
}

impl Display for Output<'_> {
    fn fmt<W: Write>(&self, f: &mut Formatter<W>) -> fmt::Result {
        let words = self.0;
        let written = words
            .iter()
            .position(|word| *word == BEFORE)
            .unwrap_or(words.len());
        let rest = if all_are(&words[written..], BEFORE) {
            "unchanged"
        } else {
            "changed"
        };
        write!(f, "output {written} words written, rest {rest}")
    }
}

impl Display for Numbers<'_> {
    fn fmt<W: Write>(&self, f: &mut Formatter<W>) -> fmt::Result {
        for number in self.0 {
            write!(f, " {number}")?;
        }
        Ok(())
    }
}
