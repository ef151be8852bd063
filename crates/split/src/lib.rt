#![tactic(auto)]

// One step of splitting a list of cells by a plane: both parts of one cell join the next list, within the budget of 512 cells.
ghost use Rattle.std.specs.Prelude.{◌≡◌, ltb};
ghost use Rattle.refusal.specs.Outcome.{then};
ghost use Rattle.room.specs.Rooms.{cell_at, counts_at};
ghost use Rattle.clip.specs.Clips.{Given, Wide};
ghost use Rattle.stack.specs.Stacks.{list_at, Listed, Holds, Places, Work};
ghost use Rattle.split.specs.Splits.{split_cell, capped};

use space::{Plane, Precision};
use stack::Stack;

fn within_budget(s: Stack) -> Stack
    ensures { result ≡ capped (ltb 512 s.cells) s }
{
    if 512 < s.cells {
        return stack::gone(refusal::refuse(11));
    }
    s
}

// What lies below the plane joins the list, then what lies below `back`, its opposite.
pub fn split_cell(
    t: Precision,
    limit: usize,
    plane: Plane,
    back: Plane,
    src: &[f64],
    from: usize,
    corners: &[u64],
    j: usize,
    faces: usize,
    s: Stack,
    dst: &mut [f64],
    counts: &mut [u64],
    sizes: &mut [u64],
    face: &mut [f64],
    cap: &mut [f64],
    flat: &mut [f64],
    order: &mut [u64],
    chain: &mut [u64],
) -> Stack
    requires given { Given src.now from corners.now j faces × Wide (cell_at src.now from (counts_at corners.now j faces)) }
    requires holds { Holds limit s dst.old counts.old sizes.old × Places limit dst.old counts.old sizes.old × Work face.old cap.old flat.old order.old chain.old }
    ensures { Listed limit (then (list_at s dst.old counts.old sizes.old) (split_cell t limit plane back (cell_at src.now from (counts_at corners.now j faces)))) result dst.new counts.new sizes.new }
{
    let below = stack::add_part(
        t, limit, plane, src, from, corners, j, faces, s, dst, counts, sizes, face, cap, flat,
        order, chain,
    );
    let all = stack::add_part(
        t, limit, back, src, from, corners, j, faces, below, dst, counts, sizes, face, cap, flat,
        order, chain,
    );
    within_budget(all)
}
