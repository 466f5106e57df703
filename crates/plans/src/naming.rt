// Answer 8: each table is named exactly once.
ghost use Rattle.std.specs.Prelude.{◌≡◌, [], ◌≤◌};
ghost use Rattle.semantics.specs.Plans.{misnamed};
ghost use Rattle.refusals.specs.Refusals.{refused_at, refusal_of};

use refusals::{Reason, Refusal};

// The refusal for the byte at an index, or for the end.
fn not_named_once(at: usize) -> Refusal
    ensures { result ≡ refusal_of 8 at }
{
    Refusal {
        reason: Reason::NotNamedOnce,
        detail: at,
    }
}

// Whether each of that many tables is named once; else the first byte that names one that is absent or already named, or the end where
// one is not named.
pub(crate) fn check_naming(code: &[u8], tables: usize) -> Result<(), Refusal>
    requires { tables ≤ 16 }
    ensures { result ≡ refused_at 8 (misnamed tables [] 0 code.now) }
{
    let mut named = [false; 16];
    let mut count = 0;
    for (i, b) in code.iter().enumerate() {
        match *b {
            0..=15 => {
                let t = usize::from(*b);
                if tables <= t || named[t] {
                    return Err(not_named_once(i));
                }
                named[t] = true;
                count += 1;
            }
            255 => {}
            _ => return Err(not_named_once(i)),
        }
    }
    if count == tables {
        Ok(())
    } else {
        Err(not_named_once(code.len()))
    }
}
