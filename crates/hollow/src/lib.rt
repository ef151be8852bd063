#![tactic(auto)]

// The parts of the hollow solid.
ghost use Rattle.std.specs.Prelude.{◌≡◌, [], reverse, ◌+◌, ◌*◌, ◌≤◌, length};
ghost use Rattle.std.proofs.lemmas.List.Edits.{sets};
ghost use Rattle.refusal.specs.Outcome.{each};
ghost use Rattle.space.specs.Shapes.{corners};
ghost use Rattle.polygon.specs.Memory.{floats_of, points_at};
ghost use Rattle.room.specs.Rooms.{plane_size, face_at, cell_at, counts_at};
ghost use Rattle.bounds.specs.Bounds.{Lies};
ghost use Rattle.offset.specs.Stored.{FaceMoved, CellMoved, Place};
ghost use Rattle.hollow.specs.Hollows.{thick, reversed_face, room_for, hollow_in};
ghost use Rattle.hollow.specs.Stored.{behind, Walled, Walls};

use refusal::Refusal;
use space::{Plane, Precision};

// The wall is certified thicker than the linear tolerance.
#[tactic(auto, unfolding(crate::specs::Hollows::thick))]
pub fn is_thick(t: Precision, w: f64) -> bool
    ensures { result ≡ thick t w }
{
    let above = interval::sub(interval::point(w), interval::point(t.linear));
    float::is_finite(w) & side::is_positive(interval::sign_of(above))
}

// The n points that stand in `src` from `at` on, the last first.
fn reverse_points(src: &[f64], at: usize, n: usize, dst: &mut [f64], to: usize)
    requires { (at + 3 * n ≤ length src.now) × (to + 3 * n ≤ length dst.old) }
    ensures { dst.new ≡ sets dst.old to (floats_of (reverse (points_at src.now at n))) }
{
    let mut o = to;
    for i in (0..n).rev() {
        let q = polygon::get_point(src, at + 3 * i);
        polygon::put_point(dst, o, q);
        o += 3;
    }
}

// A face seen from its other side.
fn reverse_face(
    t: Precision,
    src: &[f64],
    o: usize,
    c: usize,
    dst: &mut [f64],
    to: usize,
) -> Result<(), Refusal>
    requires { (o + plane_size + 3 * c ≤ length src.now) × (to + plane_size + 3 * c ≤ length dst.old) }
    ensures { FaceMoved (reversed_face t (face_at src.now o c)) to dst.old dst.new result }
{
    let w = room::get_plane(src, o);
    let f = side::opposite(w, t)?;
    room::put_plane(dst, to, f);
    reverse_points(src, o + room::PLANE, c, dst, to + room::PLANE);
    Ok(())
}

// The faces of the cell of n faces in `src`, each seen from its other side, go to `dst` and `sizes` from `to` and `k` on.
pub fn reverse_faces(
    t: Precision,
    src: &[f64],
    from: usize,
    counts: &[u64],
    first: usize,
    n: usize,
    dst: &mut [f64],
    to: usize,
    sizes: &mut [u64],
    k: usize,
) -> Result<(), Refusal>
    requires { Lies src.now from counts.now first n × Place counts.now first n dst.old to sizes.old k }
    ensures { CellMoved (each (reversed_face t) [] (cell_at src.now from (counts_at counts.now first n))) n dst.old to sizes.old k dst.new sizes.new result }
{
    let mut o = from;
    let mut q = to;
    for j in 0..n {
        let c = counts[first + j] as usize;
        reverse_face(t, src, o, c, dst, q)?;
        sizes[k + j] = c as u64;
        o = o + room::PLANE + 3 * c;
        q = q + room::PLANE + 3 * c;
    }
    Ok(())
}

// How many corners n faces have.
pub fn corners_of(counts: &[u64], first: usize, n: usize, src: &[f64], from: usize) -> usize
    requires { Lies src.now from counts.now first n }
    ensures { (result ≡ corners 0 (cell_at src.now from (counts_at counts.now first n))) × (3 * result ≤ length src.now) }
{
    let mut held = 0;
    for j in 0..n {
        held += counts[first + j] as usize;
    }
    held
}

// 12 where an answer has more corners than the room.
pub fn room_for(limit: usize, n: usize) -> Result<(), Refusal>
    ensures { result ≡ room_for limit n }
{
    if limit < n {
        return Err(refusal::refuse(12));
    }
    Ok(())
}

// The outer cell of `faces` faces stands in `dst` and `sizes` from `to` and `k` on. The moved cell must lie strictly inside it; the built
// one is put behind it, reversed. What a refusal leaves behind the outer cell is free.
pub fn hollow_in(
    t: Precision,
    limit: usize,
    moved: &[f64],
    mat: usize,
    mcounts: &[u64],
    mfirst: usize,
    mn: usize,
    src: &[f64],
    from: usize,
    counts: &[u64],
    first: usize,
    n: usize,
    dst: &mut [f64],
    to: usize,
    sizes: &mut [u64],
    k: usize,
    faces: usize,
) -> Result<(), Refusal>
    requires { Walls moved.now mat mcounts.now mfirst mn src.now from counts.now first n dst.old to sizes.old k faces }
    ensures { Walled (hollow_in t limit (cell_at dst.old to (counts_at sizes.old k faces)) (cell_at moved.now mat (counts_at mcounts.now mfirst mn)) (cell_at src.now from (counts_at counts.now first n))) dst.old (behind to faces (cell_at dst.old to (counts_at sizes.old k faces))) sizes.old (k + faces) dst.new sizes.new result }
{
    bounds::against(
        true, t, dst, to, sizes, k, faces, moved, mat, mcounts, mfirst, mn,
    )?;
    let outer = corners_of(sizes, k, faces, dst, to);
    let inner = corners_of(counts, first, n, src, from);
    let at = to + room::PLANE * faces + 3 * outer;
    reverse_faces(t, src, from, counts, first, n, dst, at, sizes, k + faces)?;
    room_for(limit, outer + inner)
}
