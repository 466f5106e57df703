// A tree as bytes: that of the side with the root, with the other side's tree hung in it.
ghost use Rattle.mending.specs.Writing.{WriteAsked, TreeWritten};

use crate::hanging::hang;
use crate::parts::{Survey, is_table};
use crate::rooting::Memory;

impl Survey<'_> {
    // The bytes of the tree, of the plan at an index, for this root.
    pub(crate) fn write_tree(&self, at: usize, place: usize, best: &mut Memory, out: &mut [u8; 31])
        requires { WriteAsked self.now best.old out.old at place }
        ensures { TreeWritten self.now best.new out.new at place }
    {
        let b = self.code[at];
        if is_table(b) {
            out[0] = b;
            return;
        }
        let near = self.hand_of(at, place);
        let far = near.other();
        let own = self.side(at, near);
        let other = self.side(at, far);
        let mut tree = [0u8; 31];
        let mut hung = [0u8; 31];
        self.write_tree(own.start, place, &mut *best, &mut tree);
        let root = self.best_root(at, far, &mut *best);
        self.write_tree(other.start, root.place, best, &mut hung);
        let n = own.end - own.start;
        let m = other.end - other.start;
        hang(&tree[..n], &hung[..m], own.key, self.masks, out);
    }
}
