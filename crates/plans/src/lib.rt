// The plan of a file: whether its bytes spell one plan (7) and name each table once (8); the plan that the join follows, which is
// itself where it is well-behaved, else the mended one (9), and the one found where there is none (14); and whether the file
// and the scratch are taken (1 to 10, 14 and 19).
#![tactic(auto)]

mod admission;
mod behaviour;
mod forming;
mod naming;
mod spelling;

pub use admission::{Admission, admit};
