#![tactic(auto)]

// Boolean operations of two convex cells as lists of convex cells. The remainder of the first cell lives in a room of its own,
// `rest` with `held`; `spare` with `slots` is a second room for its cuts. The list lies in `dst`, `counts` and `sizes`. All of
// these are work memory but for the list that an answer tells; the memory of a cut is made once for each walk over the planes.
ghost use Rattle.std.specs.Prelude.{◌≡◌, true, [], ◌+◌, ◌*◌, ◌≤◌, length};
ghost use Rattle.refusal.specs.Outcome.{then, heard};
ghost use Rattle.room.specs.Rooms.{cell_at, counts_at};
ghost use Rattle.clip.specs.Clips.{Given, Wide};
ghost use Rattle.stack.specs.Stacks.{add_part, Listed, Places, stack_of};
ghost use Rattle.carving.specs.Rests.{rest_at, Sits, Place};
ghost use Rattle.cells.specs.Cells.{minus, common, both, cells};

pub use carving::{Carved, Rest};
use job::Operation;
use refusal::Refusal;
use space::Precision;
use stack::Stack;

// The pieces of the first cell, which stands in `rest`, outside the second one: its floats stand in `src` from `from` on, its
// faces' numbers of corners in `corners` from `j` on.
pub fn difference(
    t: Precision,
    limit: usize,
    faces: usize,
    src: &[f64],
    from: usize,
    corners: &[u64],
    j: usize,
    many: usize,
    rest: &mut [f64],
    held: &mut [u64],
    spare: &mut [f64],
    slots: &mut [u64],
    dst: &mut [f64],
    counts: &mut [u64],
    sizes: &mut [u64],
) -> Stack
    requires sits { Sits faces rest.old held.old × Given src.now from corners.now j many }
    requires place { Place limit rest.old held.old × Place limit spare.old slots.old × Places limit dst.old counts.old sizes.old }
    ensures { Listed limit (minus t limit (cell_at rest.old 0 (counts_at held.old 0 faces)) (cell_at src.now from (counts_at corners.now j many))) result dst.new counts.new sizes.new }
{
    let mut face = [0.0; 384];
    let mut cap = [0.0; 3072];
    let mut flat = [0.0; 2048];
    let mut order = [0u64; 1024];
    let mut chain = [0u64; 2048];
    let mut s = Carved {
        rest: Rest {
            verdict: Ok(()),
            some: true,
            faces,
        },
        list: stack::empty(),
    };
    let mut o = from;
    for i in 0..many {
        let n = corners[j + i] as usize;
        let w = room::get_plane(src, o);
        s = carving::carve(
            t, limit, w, s, rest, held, spare, slots, dst, counts, sizes, &mut face, &mut cap,
            &mut flat, &mut order, &mut chain,
        );
        o = o + room::PLANE + 3 * n;
    }
    carving::end(s)
}

fn begun(v: Result<(), Refusal>) -> Stack
    ensures { result ≡ stack_of (heard v []) }
{
    match v {
        Ok(()) => stack::empty(),
        Err(e) => stack::gone(e),
    }
}

// What remains is the only cell of a list.
fn settle(
    limit: usize,
    s: Rest,
    rest: &[f64],
    held: &[u64],
    dst: &mut [f64],
    counts: &mut [u64],
    sizes: &mut [u64],
) -> Stack
    requires sits { s.some ≡ true → Sits s.faces rest.now held.now }
    requires places { Places limit dst.old counts.old sizes.old }
    ensures { Listed limit (then (rest_at s rest.now held.now) (add_part limit [])) result dst.new counts.new sizes.new }
{
    let v = s.verdict;
    let some = s.some;
    let faces = s.faces;
    let list = begun(v);
    if !some {
        return list;
    }
    stack::add_cell(limit, rest, 0, held, 0, faces, list, dst, counts, sizes)
}

// What the two cells have in common.
pub fn intersection(
    t: Precision,
    limit: usize,
    faces: usize,
    src: &[f64],
    from: usize,
    corners: &[u64],
    j: usize,
    many: usize,
    rest: &mut [f64],
    held: &mut [u64],
    spare: &mut [f64],
    slots: &mut [u64],
    dst: &mut [f64],
    counts: &mut [u64],
    sizes: &mut [u64],
) -> Stack
    requires sits { Sits faces rest.old held.old × Given src.now from corners.now j many }
    requires place { Place limit rest.old held.old × Place limit spare.old slots.old × Places limit dst.old counts.old sizes.old }
    ensures { Listed limit (common t limit (cell_at rest.old 0 (counts_at held.old 0 faces)) (cell_at src.now from (counts_at corners.now j many))) result dst.new counts.new sizes.new }
{
    let mut face = [0.0; 384];
    let mut cap = [0.0; 3072];
    let mut flat = [0.0; 2048];
    let mut order = [0u64; 1024];
    let mut chain = [0u64; 2048];
    let mut s = Rest {
        verdict: Ok(()),
        some: true,
        faces,
    };
    let mut o = from;
    for i in 0..many {
        let n = corners[j + i] as usize;
        let plane = room::get_plane(src, o);
        s = carving::cut_rest(
            t, limit, plane, s, rest, held, spare, slots, &mut face, &mut cap, &mut flat,
            &mut order, &mut chain,
        );
        o = o + room::PLANE + 3 * n;
    }
    settle(limit, s, rest, held, dst, counts, sizes)
}

// The pieces of the first cell outside the second one, and the second one last.
pub fn unite(
    t: Precision,
    limit: usize,
    faces: usize,
    src: &[f64],
    from: usize,
    corners: &[u64],
    j: usize,
    many: usize,
    rest: &mut [f64],
    held: &mut [u64],
    spare: &mut [f64],
    slots: &mut [u64],
    dst: &mut [f64],
    counts: &mut [u64],
    sizes: &mut [u64],
) -> Stack
    requires sits { Sits faces rest.old held.old × Given src.now from corners.now j many × Wide (cell_at src.now from (counts_at corners.now j many)) × (1 ≤ many) × (many ≤ 128) }
    requires place { Place limit rest.old held.old × Place limit spare.old slots.old × Places limit dst.old counts.old sizes.old }
    ensures { Listed limit (both t limit (cell_at rest.old 0 (counts_at held.old 0 faces)) (cell_at src.now from (counts_at corners.now j many))) result dst.new counts.new sizes.new }
{
    let list = difference(
        t, limit, faces, src, from, corners, j, many, rest, held, spare, slots, dst, counts, sizes,
    );
    stack::add_cell(limit, src, from, corners, j, many, list, dst, counts, sizes)
}

pub fn boolean_cells(
    op: Operation,
    t: Precision,
    limit: usize,
    faces: usize,
    src: &[f64],
    from: usize,
    corners: &[u64],
    j: usize,
    many: usize,
    rest: &mut [f64],
    held: &mut [u64],
    spare: &mut [f64],
    slots: &mut [u64],
    dst: &mut [f64],
    counts: &mut [u64],
    sizes: &mut [u64],
) -> Stack
    requires sits { Sits faces rest.old held.old × Given src.now from corners.now j many × Wide (cell_at src.now from (counts_at corners.now j many)) × (1 ≤ many) × (many ≤ 128) }
    requires place { Place limit rest.old held.old × Place limit spare.old slots.old × Places limit dst.old counts.old sizes.old }
    ensures { Listed limit (cells op t limit (cell_at rest.old 0 (counts_at held.old 0 faces)) (cell_at src.now from (counts_at corners.now j many))) result dst.new counts.new sizes.new }
{
    match op {
        Operation::Intersection => intersection(
            t, limit, faces, src, from, corners, j, many, rest, held, spare, slots, dst, counts,
            sizes,
        ),
        Operation::Difference => difference(
            t, limit, faces, src, from, corners, j, many, rest, held, spare, slots, dst, counts,
            sizes,
        ),
        Operation::Union => unite(
            t, limit, faces, src, from, corners, j, many, rest, held, spare, slots, dst, counts,
            sizes,
        ),
    }
}
