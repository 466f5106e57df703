// A tree hung in bytes: an FF and the hung tree's bytes are put before and behind the plan that begins with the topmost holder.
ghost use Rattle.std.specs.Prelude.{◌≡◌, ◌≤◌, length};
ghost use Rattle.mending.specs.Parts.{MaskWords};
ghost use Rattle.mending.specs.Hanging.{held_by, FirstHolder, RunStart, Hangable, HangsAt, HangAsked, TreeHung};

use crate::parts::{is_table, part_at};

// Whether the byte is a table that holds all attributes of the key.
pub(crate) fn holds(masks: &[u32; 16], key: u32, b: u8) -> bool
    ensures { result ≡ held_by masks.now key b }
{
    is_table(b) && key & masks[words::index(b)] == key
}

// The first byte that is a table which holds the key: the topmost one of the tree that the bytes spell.
fn first_holder(tree: &[u8], key: u32, masks: &[u32; 16]) -> Option<usize>
    ensures { FirstHolder masks.now key tree.now result }
{
    tree.iter().position(|b| holds(masks, key, *b))
}

// Where the FFs right before an index begin. The loop is over no range: it ends at a byte that is no FF.
fn run_start(tree: &[u8], j: usize) -> usize
    requires { j ≤ length tree.now }
    ensures { RunStart tree.now j result }
{
    let mut i = j;
    while 0 < i {
        match tree[i - 1] {
            255 => i -= 1,
            _ => return i,
        }
    }
    i
}

// Where a tree is hung in the tree `own`: the beginning and the end of the plan that begins with the topmost table that holds the key.
fn place_for(own: &[u8], key: u32, masks: &[u32; 16]) -> (usize, usize)
    requires { MaskWords masks.now × Hangable masks.now key own.now }
    ensures { HangsAt masks.now key own.now result.0 result.1 }
{
    let holder = first_holder(own, key, masks).unwrap();
    let start = run_start(own, holder);
    (start, part_at(own, masks, start).next)
}

// The tree `hung` hung last under the topmost table of the tree `own` that holds the key.
pub(crate) fn hang(own: &[u8], hung: &[u8], key: u32, masks: &[u32; 16], out: &mut [u8; 31])
    requires { HangAsked masks.now key own.now hung.now out.old }
    ensures { TreeHung masks.now key own.now hung.now out.new }
{
    let (start, end) = place_for(own, key, masks);
    let behind = end + 1 + hung.len();
    out[..start].copy_from_slice(&own[..start]);
    out[start] = 255;
    out[start + 1..end + 1].copy_from_slice(&own[start..end]);
    out[end + 1..behind].copy_from_slice(hung);
    out[behind..own.len() + hung.len() + 1].copy_from_slice(&own[end..]);
}
