// Well-behaved plans: at every join the two leftmost tables have all join attributes. Such a plan need not be mended.
ghost use Rattle.std.specs.Prelude.{◌≡◌, ◌<◌, ℕ, get_or, length};
ghost use Rattle.semantics.specs.Plans.{Plan};
ghost use Rattle.semantics.specs.Shapes.{Shape};
ghost use Rattle.mending.specs.Places.{PlanAt, Planned};
ghost use Rattle.plans.specs.Judging.{well_behaved, joined_of, Judged};
ghost use Rattle.words.specs.Masks.{Masked};

// A well-behaved plan inside the plan: the attributes of its tables, its leftmost table, and the index behind it.
#[derive(Clone, Copy)]
pub struct Subplan {
    pub attributes: u32,
    pub leftmost: usize,
    pub next: usize,
}

impl Subplan {
    // The join of this plan with one behind it, for tables with these masks, where it is well-behaved too.
    fn join(self, right: Subplan, masks: &[u32; 16]) -> Option<Subplan>
        requires { (self.leftmost < 16) × (right.leftmost < 16) }
        ensures { result ≡ joined_of self right (get_or masks.now self.leftmost 0) (get_or masks.now right.leftmost 0) }
    {
        let shared = self.attributes & right.attributes;
        let held = masks[self.leftmost] & masks[right.leftmost];
        if shared & held != shared {
            return None;
        }
        Some(Subplan {
            attributes: self.attributes | right.attributes,
            leftmost: self.leftmost,
            next: right.next,
        })
    }
}

// The plan that begins at an index, for tables with these masks, where it is well-behaved. The bytes spell a plan: only a table number or
// an FF stands there.
fn judge(code: &[u8], masks: &[u32; 16], at: usize) -> Option<Subplan>
    requires { Planned code.now at }
    ensures { (p : Plan) (e : ℕ) → PlanAt code.now at p e → Judged masks.now p e result }
{
    let b = code[at];
    match b {
        0..=15 => {
            let t = usize::from(b);
            Some(Subplan {
                attributes: masks[t],
                leftmost: t,
                next: at + 1,
            })
        }
        255 => {
            let left = judge(code, masks, at + 1)?;
            let right = judge(code, masks, left.next)?;
            left.join(right, masks)
        }
        _ => None,
    }
}

// Whether the plan that the bytes spell is well-behaved.
pub(crate) fn is_well_behaved(code: &[u8], masks: &[u32; 16]) -> bool
    requires { Planned code.now 0 }
    ensures { (S : Shape) → Masked masks.now S
        → (p : Plan) → PlanAt code.now 0 p (length code.now) → result ≡ well_behaved S p }
{
    judge(code, masks, 0).is_some()
}
