#![tactic(auto)]

// The planes of a cell moved along their normals, and its corners with them.
ghost use Rattle.std.specs.Prelude.{◌≡◌, true, [], map, ◌++◌, ◌+◌, ◌*◌, ◌≤◌, length, take, drop, replicate};
ghost use Rattle.std.proofs.lemmas.List.Edits.{sets};
ghost use Rattle.float.specs.Float.{finite};
ghost use Rattle.refusal.specs.Outcome.{each};
ghost use Rattle.lists.specs.Walks.{all};
ghost use Rattle.polygon.specs.Memory.{floats_of, points_at};
ghost use Rattle.room.specs.Rooms.{plane_size, face_at, cell_at, counts_at};
ghost use Rattle.solids.specs.Frames.{point_of};
ghost use Rattle.shift.specs.Shifts.{meeting};
ghost use Rattle.offset.specs.Offsets.{pushes, move_points, move_face, move_all, offset_distances, offset_cell};
ghost use Rattle.offset.specs.Stored.{Source, moving_at, PointsMoved, FaceMoved, CellMoved, Place, Ready};

use refusal::Refusal;
use shift::{Meeting, Push};
use space::{Plane, Precision};

// Each of n distances is finite.
fn all_finite(by: &[f64], n: usize) -> bool
    requires { n ≤ length by.now }
    ensures { result ≡ all finite true (take n by.now) }
{
    let mut fine = true;
    for j in 0..n {
        fine = fine & float::is_finite(by[j]);
    }
    fine
}

// The faces that meet the point of place x.
#[tactic(auto, using(crate::specs::Laws::along_inside, crate::specs::Laws::along_few))]
fn meeting_at(
    s: &[f64],
    at: usize,
    counts: &[u64],
    first: usize,
    n: usize,
    by: &[f64],
    places: &[u64],
    x: usize,
) -> Meeting
    requires { Source s.now at counts.now first n by.now places.now }
    ensures { result ≡ meeting (pushes x [] (moving_at s.now at counts.now first n by.now places.now)) }
{
    let mut m = shift::alone();
    let mut o = at;
    let mut k = 0;
    for j in 0..n {
        let c = counts[first + j] as usize;
        let normal = polygon::get_point(s, o + 9);
        let p = Push { normal, by: by[j] };
        let meets = solids::is_corner(places, k, c, x);
        m = shift::note_if(meets, m, p);
        o = o + room::PLANE + 3 * c;
        k += c;
    }
    m
}

// The m points of the cell, each moved with the faces that meet it.
#[tactic(auto, using(crate::specs::Laws::shifting_size))]
fn move_points(
    t: Precision,
    s: &[f64],
    at: usize,
    counts: &[u64],
    first: usize,
    n: usize,
    by: &[f64],
    places: &[u64],
    points: &[f64],
    m: usize,
    moved: &mut [f64],
) -> Result<(), Refusal>
    requires { Source s.now at counts.now first n by.now places.now × (3 * m ≤ length points.now) × (3 * m ≤ length moved.old) }
    ensures { PointsMoved (move_points t (moving_at s.now at counts.now first n by.now places.now) 0 [] (points_at points.now 0 m)) m moved.old moved.new result }
{
    for x in 0..m {
        let p = polygon::get_point(points, 3 * x);
        let meeting = meeting_at(s, at, counts, first, n, by, places, x);
        let q = shift::moved(t, p, meeting)?;
        polygon::put_point(moved, 3 * x, q);
    }
    Ok(())
}

// A face on its moved plane.
fn move_face(
    t: Precision,
    s: &[f64],
    o: usize,
    d: f64,
    places: &[u64],
    p: usize,
    c: usize,
    moved: &[f64],
    m: usize,
    dst: &mut [f64],
    to: usize,
) -> Result<(), Refusal>
    requires { (o + plane_size + 3 * c ≤ length s.now) × (p + c ≤ length places.now) × (3 * m ≤ length moved.now) × (to + plane_size + 3 * c ≤ length dst.old) }
    ensures { FaceMoved (move_face t (points_at moved.now 0 m) (record { face = face_at s.now o c; places = counts_at places.now p c; by = d })) to dst.old dst.new result }
{
    let w = room::get_plane(s, o);
    let f = shift::moved_plane(t, w, d)?;
    room::put_plane(dst, to, f);
    solids::put_corners(moved, m, places, p, c, dst, to + room::PLANE);
    Ok(())
}

// The faces of the cell on their moved planes.
#[tactic(auto, using(crate::specs::Laws::along_inside, crate::specs::Laws::along_few, crate::specs::Laws::building_fits, crate::specs::Laws::listing_size, crate::specs::Laws::listing_slots))]
fn move_faces(
    t: Precision,
    s: &[f64],
    at: usize,
    counts: &[u64],
    first: usize,
    n: usize,
    by: &[f64],
    places: &[u64],
    moved: &[f64],
    m: usize,
    dst: &mut [f64],
    to: usize,
    sizes: &mut [u64],
    k: usize,
) -> Result<(), Refusal>
    requires { Source s.now at counts.now first n by.now places.now × (3 * m ≤ length moved.now) × Place counts.now first n dst.old to sizes.old k }
    ensures { CellMoved (each (move_face t (points_at moved.now 0 m)) [] (moving_at s.now at counts.now first n by.now places.now)) n dst.old to sizes.old k dst.new sizes.new result }
{
    let mut o = at;
    let mut p = 0;
    let mut q = to;
    for j in 0..n {
        let c = counts[first + j] as usize;
        let d = by[j];
        move_face(t, s, o, d, places, p, c, moved, m, dst, q)?;
        sizes[k + j] = c as u64;
        o = o + room::PLANE + 3 * c;
        p += c;
        q = q + room::PLANE + 3 * c;
    }
    Ok(())
}

// Points, then faces, then the side tests.
fn move_all(
    t: Precision,
    s: &[f64],
    at: usize,
    counts: &[u64],
    first: usize,
    n: usize,
    by: &[f64],
    places: &[u64],
    points: &[f64],
    m: usize,
    moved: &mut [f64],
    dst: &mut [f64],
    to: usize,
    sizes: &mut [u64],
    k: usize,
) -> Result<(), Refusal>
    requires { Source s.now at counts.now first n by.now places.now × (3 * m ≤ length points.now) × (3 * m ≤ length moved.old) × Place counts.now first n dst.old to sizes.old k }
    ensures { CellMoved (move_all t (moving_at s.now at counts.now first n by.now places.now) (points_at points.now 0 m)) n dst.old to sizes.old k dst.new sizes.new result }
{
    move_points(t, s, at, counts, first, n, by, places, points, m, moved)?;
    move_faces(
        t, s, at, counts, first, n, by, places, moved, m, dst, to, sizes, k,
    )?;
    bounds::against(false, t, dst, to, sizes, k, n, dst, to, sizes, k, n)
}

// The cell of n faces that stands in `s` from `at` on, its faces' numbers of corners in `counts` from `first` on; the face at place j is
// pushed by by[j]. The moved cell is put into `dst` and `sizes` from `to` and `k` on. The other slices are work memory: what they hold
// after the call is free, and so is what a refusal leaves in `dst` and `sizes`.
pub fn offset_distances(
    t: Precision,
    s: &[f64],
    at: usize,
    counts: &[u64],
    first: usize,
    n: usize,
    by: &[f64],
    points: &mut [f64],
    places: &mut [u64],
    moved: &mut [f64],
    dst: &mut [f64],
    to: usize,
    sizes: &mut [u64],
    k: usize,
) -> Result<(), Refusal>
    requires { Ready s.now at counts.now first n by.now points.old places.old moved.old dst.old to sizes.old k }
    ensures { CellMoved (offset_distances t (take n by.now) (cell_at s.now at (counts_at counts.now first n))) n dst.old to sizes.old k dst.new sizes.new result }
{
    if !all_finite(by, n) {
        return Err(refusal::refuse(2));
    }
    let m = indexed::indexed(t, s, at, counts, first, n, points, places)?;
    move_all(
        t, s, at, counts, first, n, by, places, points, m, moved, dst, to, sizes, k,
    )
}

// The same, every face pushed by d; `by` is work memory too.
pub fn offset(
    t: Precision,
    s: &[f64],
    at: usize,
    counts: &[u64],
    first: usize,
    n: usize,
    d: f64,
    by: &mut [f64],
    points: &mut [f64],
    places: &mut [u64],
    moved: &mut [f64],
    dst: &mut [f64],
    to: usize,
    sizes: &mut [u64],
    k: usize,
) -> Result<(), Refusal>
    requires { Ready s.now at counts.now first n by.old points.old places.old moved.old dst.old to sizes.old k }
    ensures { CellMoved (offset_cell t d (cell_at s.now at (counts_at counts.now first n))) n dst.old to sizes.old k dst.new sizes.new result }
{
    by[..n].fill(d);
    offset_distances(
        t, s, at, counts, first, n, by, points, places, moved, dst, to, sizes, k,
    )
}
