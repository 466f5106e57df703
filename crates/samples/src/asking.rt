// Results by their numbers, and the way back.
use crate::BEFORE;
use crate::showing::{Numbers, Output, Scratch, Stdout};
use capi_access::{pigrozd_number_answer, pigrozd_result_answer};
use std::fmt::Write;

// A file whose results are asked for, and the buffers that are lent for it.
#[derive(Drop)]
pub(crate) struct Asking<'a> {
    pub(crate) file: &'a [u8],
    pub(crate) scratch: &'a mut [u32],
    pub(crate) row: &'a mut [u32],
}

impl Asking<'_> {
    // Past the last result, and where there are some, the first, the middle and the last one.
    pub(crate) fn show_results(&mut self) {
        let Some(count) = self.show_result(u64::MAX) else {
            return;
        };
        if count > 0 {
            for n in [0, count / 2, count - 1] {
                self.show_result(n);
            }
        }
    }

    // Result number n, and the way back from it. Gives the number of results where n is not below it. The answer is C's, so a number tells
    // what it is.
    fn show_result(&mut self, n: u64) -> Option<u64> {
        let answer = self.ask(n);
        self.print_answer(n, answer);
        match answer.number {
            0 => {
                self.print_ways_back(n, &answer.rows, &answer.copies);
                None
            }
            16 => {
                self.print_no_way_back();
                Some(answer.detail)
            }
            _ => {
                self.print_no_way_back();
                None
            }
        }
    }

    // The answer to result number n, with buffers that are lent again.
    fn ask(&mut self, n: u64) -> pigrozd_result_answer {
        self.scratch.fill(BEFORE);
        self.row.fill(BEFORE);
        capi_access::pigrozd_result_at(self.file, &mut *self.scratch, n, &mut *self.row)
    }

    // The answer, its row numbers and copies, and what the buffers hold then.
    fn print_answer(&self, n: u64, answer: pigrozd_result_answer) {
        let _ = write!(
            Stdout,
            "result {n}: {} {}, rows{}, copies{}, {}, {}",
            answer.number,
            answer.detail,
            Numbers(&answer.rows),
            Numbers(&answer.copies),
            Scratch(self.scratch),
            Output(self.row)
        );
    }

    // The number of the result that has these row numbers and copies.
    fn number_of(&mut self, rows: &[u32], copies: &[u32]) -> pigrozd_number_answer {
        let scratch = &mut *self.scratch;
        capi_access::pigrozd_number_of(self.file, scratch, rows, copies)
    }

    // How many row numbers and copies lead back to result number n: so many as there are tables, and no other number of them.
    fn print_ways_back(&mut self, n: u64, rows: &[u32; 16], copies: &[u32; 16]) {
        let _ = write!(Stdout, ", back by");
        for k in 0..=rows.len() {
            let answer = self.number_of(&rows[..k], &copies[..k]);
            if answer.number == 0 {
                let other = if answer.n == n {
                    ""
                } else {
                    " to another result"
                };
                let _ = write!(Stdout, " {k}{other}");
            }
        }
        let _ = writeln!(Stdout);
    }

    // What the way back answers to no row numbers.
    fn print_no_way_back(&mut self) {
        let answer = self.number_of(&[], &[]);
        let _ = writeln!(Stdout, ", back {} {}", answer.number, answer.detail);
    }
}
