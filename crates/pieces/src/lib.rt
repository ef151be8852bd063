#![tactic(auto)]

// The pieces of a Boolean operation of two cells: its cells, split by every plane of both. The first cell stands in `rest` and is
// work memory once its planes are copied; so is everything else that is lent, but for the list that an answer tells.
ghost use Rattle.std.specs.Prelude.{◌≡◌, ◌++◌, ◌+◌, ◌*◌, ◌≤◌, length};
ghost use Rattle.std.proofs.lemmas.List.Edits.{sets};
ghost use Rattle.room.specs.Rooms.{cell_at, counts_at};
ghost use Rattle.clip.specs.Clips.{Given, Wide};
ghost use Rattle.stack.specs.Stacks.{Listed, Places};
ghost use Rattle.cells.specs.Rests.{Sits, Place};
ghost use Rattle.splits.specs.Planes.{planes_floats};
ghost use Rattle.pieces.specs.Pieces.{pieces_of};

use job::Operation;
use space::Precision;
use stack::Stack;

// The planes of the first cell, then those of the second.
fn both_planes(
    faces: usize,
    rest: &[f64],
    held: &[u64],
    src: &[f64],
    from: usize,
    corners: &[u64],
    j: usize,
    many: usize,
    planes: &mut [f64],
)
    requires { Sits faces rest.now held.now × Given src.now from corners.now j many × (many ≤ 128) × (3328 ≤ length planes.old) }
    ensures { planes.new ≡ sets planes.old 0 (planes_floats (cell_at rest.now 0 (counts_at held.now 0 faces)) ++ planes_floats (cell_at src.now from (counts_at corners.now j many))) }
{
    splits::planes_of(rest, 0, held, 0, faces, planes, 0);
    splits::planes_of(src, from, corners, j, many, planes, faces);
}

// The cells of the operation, each split by every plane.
pub fn pieces(
    op: Operation,
    t: Precision,
    limit: usize,
    faces: usize,
    src: &[f64],
    from: usize,
    corners: &[u64],
    j: usize,
    many: usize,
    planes: &mut [f64],
    rest: &mut [f64],
    held: &mut [u64],
    dst: &mut [f64],
    counts: &mut [u64],
    sizes: &mut [u64],
    spare: &mut [f64],
    slots: &mut [u64],
    seats: &mut [u64],
) -> Stack
    requires sits { Sits faces rest.old held.old × Given src.now from corners.now j many × Wide (cell_at src.now from (counts_at corners.now j many)) × (1 ≤ many) × (many ≤ 128) }
    requires in_bounds { (3328 ≤ length planes.old) × Place limit rest.old held.old × Places limit dst.old counts.old sizes.old × Places limit spare.old slots.old seats.old }
    ensures { Listed limit (pieces_of op t limit (cell_at rest.old 0 (counts_at held.old 0 faces)) (cell_at src.now from (counts_at corners.now j many))) result dst.new counts.new sizes.new }
{
    both_planes(faces, rest, held, src, from, corners, j, many, planes);
    let list = cells::boolean_cells(
        op, t, limit, faces, src, from, corners, j, many, rest, held, spare, slots, dst, counts,
        sizes,
    );
    splits::split_cells(
        t,
        limit,
        planes,
        faces + many,
        list,
        dst,
        counts,
        sizes,
        spare,
        slots,
        seats,
    )
}
