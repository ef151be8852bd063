#![tactic(auto)]

// A list of cells in three lent slices: the floats of the cells one behind another, the numbers of corners of their faces, and
// the number of faces of each cell. What stands behind the list, and everything after a refusal, is work memory.
ghost use Rattle.std.specs.Prelude.{◌≡◌, [], ◌+◌, ◌*◌, ◌≤◌, ◌<◌, length, take, Ok, Err};
ghost use Rattle.std.proofs.lemmas.List.Edits.{sets};
ghost use Rattle.refusal.specs.Outcome.{then};
ghost use Rattle.room.specs.Rooms.{cell_at, counts_at};
ghost use Rattle.clip.specs.Clips.{Given, Wide};
ghost use Rattle.stack.specs.Stacks.{add_cell, add_cut, stack_of, list_at, Listed, Holds, Places, Work, is_over, pushed, seated, joined, joined_sizes, Broad};

use cell::Kept;
use refusal::Refusal;
use space::{Plane, Precision};

// How many cells, faces and corners the list has.
#[derive(Clone, Copy)]
pub struct Stack {
    pub verdict: Result<(), Refusal>,
    pub cells: usize,
    pub faces: usize,
    pub corners: usize,
}

pub fn empty() -> Stack
    ensures { result ≡ stack_of (Ok []) }
{
    Stack {
        verdict: Ok(()),
        cells: 0,
        faces: 0,
        corners: 0,
    }
}

pub fn gone(e: Refusal) -> Stack
    ensures { result ≡ stack_of (Err e) }
{
    Stack {
        verdict: Err(e),
        cells: 0,
        faces: 0,
        corners: 0,
    }
}

fn is_over(limit: usize, held: usize, n: usize) -> bool
    requires { held ≤ limit }
    ensures { result ≡ is_over limit held n }
{
    limit - held < n
}

// The cell that stands behind the list joins it, where the room has a place for its corners.
fn push(limit: usize, faces: usize, n: usize, s: Stack, cells: &mut [u64]) -> Stack
    requires { (s.corners ≤ limit) × (3 * faces ≤ n) × (3 * s.faces ≤ s.corners) × (s.cells < length cells.old) }
    ensures value { result ≡ pushed (is_over limit s.corners n) s faces n }
    ensures cells_after { cells.new ≡ seated (is_over limit s.corners n) s faces cells.old }
{
    let k = s.cells;
    let held = s.corners;
    if is_over(limit, held, n) {
        return gone(refusal::refuse(12));
    }
    cells[k] = faces as u64;
    Stack {
        verdict: Ok(()),
        cells: k + 1,
        faces: s.faces + faces,
        corners: held + n,
    }
}

// What a cut answers joins the list.
fn join(limit: usize, p: Result<Option<Kept>, Refusal>, s: Stack, cells: &mut [u64]) -> Stack
    requires { (s.corners ≤ limit) × Broad p × (3 * s.faces ≤ s.corners) × (s.cells < length cells.old) }
    ensures value { result ≡ joined limit s p }
    ensures cells_after { cells.new ≡ joined_sizes limit s p cells.old }
{
    match p {
        Ok(part) => match part {
            None => s,
            Some(kept) => push(limit, kept.faces, kept.corners, s, cells),
        },
        Err(e) => gone(e),
    }
}

// The part of a cell below a plane is cut behind the list, and joins it.
pub fn add_part(
    t: Precision,
    limit: usize,
    plane: Plane,
    src: &[f64],
    from: usize,
    sizes: &[u64],
    j: usize,
    faces: usize,
    s: Stack,
    dst: &mut [f64],
    counts: &mut [u64],
    cells: &mut [u64],
    face: &mut [f64],
    cap: &mut [f64],
    flat: &mut [f64],
    order: &mut [u64],
    chain: &mut [u64],
) -> Stack
    requires given { Given src.now from sizes.now j faces × Wide (cell_at src.now from (counts_at sizes.now j faces)) }
    requires holds { Holds limit s dst.old counts.old cells.old × Places limit dst.old counts.old cells.old × Work face.old cap.old flat.old order.old chain.old }
    ensures { Listed limit (then (list_at s dst.old counts.old cells.old) (add_cut t limit plane (cell_at src.now from (counts_at sizes.now j faces)))) result dst.new counts.new cells.new }
{
    let v = s.verdict;
    let k = s.faces;
    let held = s.corners;
    let Ok(()) = v else {
        return s;
    };
    let at = room::PLANE * k + 3 * held;
    let p = clip::clip(
        t, limit, plane, src, from, sizes, j, faces, dst, at, counts, k, face, cap, flat, order,
        chain,
    );
    join(limit, p, s, cells)
}

// A whole cell of another room joins the list.
pub fn add_cell(
    limit: usize,
    src: &[f64],
    from: usize,
    sizes: &[u64],
    j: usize,
    faces: usize,
    s: Stack,
    dst: &mut [f64],
    counts: &mut [u64],
    cells: &mut [u64],
) -> Stack
    requires given { Given src.now from sizes.now j faces × Wide (cell_at src.now from (counts_at sizes.now j faces)) × (1 ≤ faces) × (faces ≤ 128) }
    requires holds { Holds limit s dst.old counts.old cells.old × Places limit dst.old counts.old cells.old }
    ensures { Listed limit (then (list_at s dst.old counts.old cells.old) (λ cs. add_cell limit cs (cell_at src.now from (counts_at sizes.now j faces)))) result dst.new counts.new cells.new }
{
    let v = s.verdict;
    let k = s.faces;
    let held = s.corners;
    let Ok(()) = v else {
        return s;
    };
    let at = room::PLANE * k + 3 * held;
    let r = cell::left_cell(limit, src, from, sizes, j, faces, dst, at, counts, k);
    match r {
        Ok(kept) => push(limit, kept.faces, kept.corners, s, cells),
        Err(e) => gone(e),
    }
}

// The first n of one slice at the front of another. It is a loop since the library's copy of slices becomes memmove, a name that the archive
// would need from outside.
pub fn copy_front<T: Copy>(src: &[T], n: usize, dst: &mut [T])
    requires { (n ≤ length src.now) × (n ≤ length dst.old) }
    ensures { dst.new ≡ sets dst.old 0 (take n src.now) }
{
    for i in 0..n {
        dst[i] = src[i];
    }
}
