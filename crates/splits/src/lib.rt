#![tactic(auto)]

// `split_cells`: every cell of a list by every plane. A plane's parts go to a second list, which is then copied back. Both lists,
// and the slices behind them, are work memory but for the list that an answer tells; the memory of a cut is the call's own.
ghost use Rattle.std.specs.Prelude.{◌≡◌, ◌+◌, ◌*◌, ◌≤◌, length, take};
ghost use Rattle.std.proofs.lemmas.List.Edits.{sets};
ghost use Rattle.refusal.specs.Outcome.{then};
ghost use Rattle.room.specs.Rooms.{plane_size, cell_at, counts_at};
ghost use Rattle.clip.specs.Clips.{Given};
ghost use Rattle.stack.specs.Stacks.{behind, cells_at, list_at, Listed, Holds, Places, Work};
ghost use Rattle.splits.specs.Planes.{split_on, split_plane, split_all, planes_at, planes_floats, Standing};

use refusal::Refusal;
use space::{Plane, Precision};
use stack::Stack;

// The place behind a cell.
fn passed(src: &[f64], from: usize, counts: &[u64], j: usize, faces: usize) -> usize
    requires { Given src.now from counts.now j faces }
    ensures { result ≡ behind from (counts_at counts.now j faces) }
{
    let mut o = from;
    for i in 0..faces {
        let n = counts[j + i] as usize;
        o = o + room::PLANE + 3 * n;
    }
    o
}

// Both parts of each of k cells join a new list.
fn split_list(
    t: Precision,
    limit: usize,
    plane: Plane,
    back: Plane,
    k: usize,
    src: &[f64],
    corners: &[u64],
    faces: &[u64],
    dst: &mut [f64],
    counts: &mut [u64],
    sizes: &mut [u64],
    face: &mut [f64],
    cap: &mut [f64],
    flat: &mut [f64],
    order: &mut [u64],
    chain: &mut [u64],
) -> Stack
    requires standing { Standing limit k src.now corners.now faces.now }
    requires places { Places limit dst.old counts.old sizes.old × Work face.old cap.old flat.old order.old chain.old }
    ensures { Listed limit (split_on t limit plane back (cells_at src.now 0 corners.now (take k faces.now))) result dst.new counts.new sizes.new }
{
    let mut s = stack::empty();
    let mut from = 0;
    let mut j = 0;
    for i in 0..k {
        let n = faces[i] as usize;
        s = split::split_cell(
            t, limit, plane, back, src, from, corners, j, n, s, dst, counts, sizes, face, cap,
            flat, order, chain,
        );
        from = passed(src, from, corners, j, n);
        j += n;
    }
    s
}

// The list of one room stands in another too.
fn copy_list(
    limit: usize,
    s: Stack,
    src: &[f64],
    corners: &[u64],
    faces: &[u64],
    dst: &mut [f64],
    counts: &mut [u64],
    sizes: &mut [u64],
)
    requires { Holds limit s src.now corners.now faces.now × Places limit src.now corners.now faces.now × Places limit dst.old counts.old sizes.old }
    ensures { Listed limit (list_at s src.now corners.now faces.now) s dst.new counts.new sizes.new }
{
    let f = s.faces;
    let n = s.corners;
    let k = s.cells;
    stack::copy_front(src, room::PLANE * f + 3 * n, dst);
    stack::copy_front(corners, f, counts);
    stack::copy_front(faces, k, sizes);
}

// The list in `dst` is split by a plane and its opposite `back`; `spare`, `slots` and `seats` are lent for the parts.
fn split_back(
    t: Precision,
    limit: usize,
    plane: Plane,
    back: Plane,
    k: usize,
    dst: &mut [f64],
    counts: &mut [u64],
    sizes: &mut [u64],
    spare: &mut [f64],
    slots: &mut [u64],
    seats: &mut [u64],
    face: &mut [f64],
    cap: &mut [f64],
    flat: &mut [f64],
    order: &mut [u64],
    chain: &mut [u64],
) -> Stack
    requires standing { Standing limit k dst.old counts.old sizes.old × Places limit dst.old counts.old sizes.old }
    requires places { Places limit spare.old slots.old seats.old × Work face.old cap.old flat.old order.old chain.old }
    ensures { Listed limit (split_on t limit plane back (cells_at dst.old 0 counts.old (take k sizes.old))) result dst.new counts.new sizes.new }
{
    let s = split_list(
        t, limit, plane, back, k, dst, counts, sizes, spare, slots, seats, face, cap, flat, order,
        chain,
    );
    copy_list(limit, s, spare, slots, seats, dst, counts, sizes);
    s
}

// The list is split by one plane.
fn split_plane(
    t: Precision,
    limit: usize,
    plane: Plane,
    s: Stack,
    dst: &mut [f64],
    counts: &mut [u64],
    sizes: &mut [u64],
    spare: &mut [f64],
    slots: &mut [u64],
    seats: &mut [u64],
    face: &mut [f64],
    cap: &mut [f64],
    flat: &mut [f64],
    order: &mut [u64],
    chain: &mut [u64],
) -> Stack
    requires holds { Holds limit s dst.old counts.old sizes.old × Places limit dst.old counts.old sizes.old }
    requires places { Places limit spare.old slots.old seats.old × Work face.old cap.old flat.old order.old chain.old }
    ensures { Listed limit (then (list_at s dst.old counts.old sizes.old) (λ cs. split_plane t limit cs plane)) result dst.new counts.new sizes.new }
{
    let v = s.verdict;
    let k = s.cells;
    let Ok(()) = v else {
        return s;
    };
    let o = side::opposite(plane, t);
    match o {
        Ok(back) => split_back(
            t, limit, plane, back, k, dst, counts, sizes, spare, slots, seats, face, cap, flat,
            order, chain,
        ),
        Err(e) => stack::gone(e),
    }
}

// The list is split by each of n planes in turn, which stand in `planes` one behind another.
pub fn split_cells(
    t: Precision,
    limit: usize,
    planes: &[f64],
    n: usize,
    list: Stack,
    dst: &mut [f64],
    counts: &mut [u64],
    sizes: &mut [u64],
    spare: &mut [f64],
    slots: &mut [u64],
    seats: &mut [u64],
) -> Stack
    requires n_in_bounds { (plane_size * n ≤ length planes.now) × Holds limit list dst.old counts.old sizes.old × Places limit dst.old counts.old sizes.old }
    requires places { Places limit spare.old slots.old seats.old }
    ensures { Listed limit (then (list_at list dst.old counts.old sizes.old) (split_all t limit (planes_at planes.now 0 n))) result dst.new counts.new sizes.new }
{
    let mut face = [0.0; 384];
    let mut cap = [0.0; 3072];
    let mut flat = [0.0; 2048];
    let mut order = [0u64; 1024];
    let mut chain = [0u64; 2048];
    let mut s = list;
    for i in 0..n {
        let w = room::get_plane(planes, room::PLANE * i);
        s = split_plane(
            t, limit, w, s, dst, counts, sizes, spare, slots, seats, &mut face, &mut cap,
            &mut flat, &mut order, &mut chain,
        );
    }
    s
}

// The planes of a cell's faces go to `planes`, behind k others.
pub fn planes_of(
    src: &[f64],
    from: usize,
    corners: &[u64],
    j: usize,
    faces: usize,
    planes: &mut [f64],
    k: usize,
)
    requires { Given src.now from corners.now j faces × (plane_size * k + plane_size * faces ≤ length planes.old) }
    ensures { planes.new ≡ sets planes.old (plane_size * k) (planes_floats (cell_at src.now from (counts_at corners.now j faces))) }
{
    let mut o = from;
    for i in 0..faces {
        let n = corners[j + i] as usize;
        let w = room::get_plane(src, o);
        room::put_plane(planes, room::PLANE * k + room::PLANE * i, w);
        o = o + room::PLANE + 3 * n;
    }
}
