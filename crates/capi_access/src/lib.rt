// Results by number with their answers in numbers, as include/pigrozd.h declares them. The crate capi_access_c exports them to C.
#![tactic(auto)]

ghost use Rattle.capi_access.specs.Calls.{ResultCalls, NumberCalls};

// The answer of a call for result number n: number, detail, and the row number of each table with the copy of that row.
#[repr(C)]
#[derive(Clone, Copy)]
pub struct pigrozd_result_answer {
    pub number: u64,
    pub detail: u64,
    pub rows: [u32; 16],
    pub copies: [u32; 16],
}

// The answer of a call for the number of a result: number, detail, and n.
#[repr(C)]
#[derive(Clone, Copy)]
pub struct pigrozd_number_answer {
    pub number: u64,
    pub detail: u64,
    pub n: u64,
}

// Result number n of a file: access::result_at.
pub fn pigrozd_result_at(
    file: &[u8],
    scratch: &mut [u32],
    n: u64,
    row: &mut [u32],
) -> pigrozd_result_answer
    ensures { ResultCalls file.now scratch.old row.old n
        scratch.new row.new result }
{
    match access::result_at(file, scratch, n, row) {
        Ok(found) => {
            let rows = found.rows;
            let copies = found.copies;
            pigrozd_result_answer {
                number: 0,
                detail: 0,
                rows,
                copies,
            }
        }
        Err(refusal) => pigrozd_result_answer {
            number: refusal.number() as u64,
            detail: refusal.detail as u64,
            rows: [0u32; 16],
            copies: [0u32; 16],
        },
    }
}

// The number of the result that has these row numbers and copies: access::number_of.
pub fn pigrozd_number_of(
    file: &[u8],
    scratch: &mut [u32],
    rows: &[u32],
    copies: &[u32],
) -> pigrozd_number_answer
    ensures { NumberCalls file.now scratch.old rows.now copies.now
        scratch.new result }
{
    match access::number_of(file, scratch, rows, copies) {
        Ok(n) => pigrozd_number_answer {
            number: 0,
            detail: 0,
            n,
        },
        Err(refusal) => pigrozd_number_answer {
            number: refusal.number() as u64,
            detail: refusal.detail as u64,
            n: 0,
        },
    }
}
