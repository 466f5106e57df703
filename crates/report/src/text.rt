// Text on its way to standard output.
ghost use Rattle.std.specs.Prelude.{◌≡◌, ◌≤◌};

use std::fmt;
use std::fmt::{Display, Formatter, Write};

// The descriptor of standard output.
const STDOUT_FILENO: i32 = 1;

// How many bytes are gathered before they are written.
const ROOM: usize = 4096;

// Text that is gathered in fixed memory, and written out where that is full and at the end: thousands of rows take few calls. What
// cannot be written is lost, and what comes behind it is tried all the same. A text is no `Drop`, so that none is left unfinished.
pub(crate) struct Text {
    bytes: [u8; ROOM],
    len: usize,
    ghost within: { len ≤ 4096 },
}

impl Text {
    pub(crate) fn new() -> Text {
        Text {
            bytes: [0; ROOM],
            len: 0,
        }
    }

    // Writes out what is gathered.
    fn flush(&mut self)
        ensures { self.new.len ≡ 0 }
    {
        io::write_all(STDOUT_FILENO, &self.bytes[..self.len]);
        self.len = 0;
    }

    // Puts a byte behind the text. A full text is written out first.
    fn push(&mut self, byte: u8) {
        if self.len == ROOM {
            self.flush();
        }
        self.bytes[self.len] = byte;
        self.len += 1;
    }

    fn put(&mut self, bytes: &[u8]) {
        for byte in bytes {
            self.push(*byte);
        }
    }

    // One line: a word and numbers.
    pub(crate) fn line(&mut self, word: &[u8], numbers: &[u64]) {
        self.put(word);
        for number in numbers {
            let _ = write!(self, " {number}");
        }
        self.put(b"\n");
    }

    // Writes out what is left.
    pub(crate) fn finish(mut self) {
        self.flush();
        let Text { bytes: _, len: _ } = self;
    }
}

// Nothing that is put into a text fails.
impl Write for Text {
    fn write_str(&mut self, s: &str) -> fmt::Result {
        self.put(s.as_bytes());
        Ok(())
    }
}

// The rows at the front of the output, as far as it goes: a line each, one blank between the values.
#[derive(Drop)]
pub(crate) struct Rows<'a> {
    pub(crate) output: &'a [u32],
    pub(crate) count: usize,
    pub(crate) width: usize,
}

impl Display for Rows<'_> {
    fn fmt<W: Write>(&self, f: &mut Formatter<W>) -> fmt::Result {
        let mut rest = self.output;
        for _ in 0..self.count {
            let Some((row, others)) = rest.split_at_checked(self.width) else {
                break;
            };
            f.write_joined(row.iter(), " ")?;
            f.write_str("\n")?;
            rest = others;
        }
        Ok(())
    }
}
