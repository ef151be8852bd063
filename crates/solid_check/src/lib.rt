#![tactic(auto)]

// The check of a solid, and the checked solid as faces with planes.
ghost use Rattle.std.specs.Prelude.{◌≡◌, true, false, map, ◌+◌, ◌*◌, ◌≤◌, ◌<◌, length};
ghost use Rattle.std.proofs.lemmas.List.Edits.{sets};
ghost use Rattle.refusal.specs.Outcome.{verdict_of};
ghost use Rattle.polygon.specs.Memory.{floats_of, points_at};
ghost use Rattle.room.specs.Rooms.{plane_size, counts_at, face_floats, cell_floats};
ghost use Rattle.solids.specs.Frames.{point_of, faces_at, Placing};
ghost use Rattle.solid_check.specs.Check.{solid_at, check, stored, framed};

use refusal::Refusal;
use space::{Plane, Precision};

// The solid of m points and n faces is checked in 01's order, with counts and turns where it is given. The other slices are work memory.
pub fn check(
    given: bool,
    t: Precision,
    points: &[f64],
    m: usize,
    places: &[u64],
    counts: &[u64],
    n: usize,
    ends: &mut [u64],
    head: &mut [u64],
    next: &mut [u64],
    seen: &mut [u64],
    work: &mut [u64],
    nodes: &mut [u64],
    cuts: &mut [u64],
) -> Result<(), Refusal>
    requires m_in_bounds { (3 * m ≤ length points.now) × (n ≤ length counts.now) × Placing (counts_at counts.now 0 n) 0 (length places.now) }
    requires places_in_bounds { (2 * length places.now ≤ length ends.old) × (2 * length places.now ≤ length next.old) × (length places.now ≤ length nodes.old) }
    requires n_in_bounds { (n ≤ length head.old) × (n ≤ length seen.old) × (n ≤ length work.old) × (n ≤ length nodes.old) × (n < length cuts.old) }
    ensures { result ≡ verdict_of (check given t (solid_at points.now m places.now counts.now n)) }
{
    if !solids::all_fair(points, m) {
        return Err(refusal::refuse(2));
    }
    if given & !solids::is_counted(m, counts, n) {
        return Err(refusal::refuse(3));
    }
    if !topology::is_sound(
        m, places, counts, n, ends, head, next, seen, work, nodes, cuts,
    ) {
        return Err(refusal::refuse(4));
    }
    solids::shape(given, t, points, m, places, counts, n)
}

// A face of plane w.
fn put_face(
    w: Plane,
    points: &[f64],
    m: usize,
    places: &[u64],
    at: usize,
    n: usize,
    s: &mut [f64],
    o: usize,
)
    requires { (3 * m ≤ length points.now) × (at + n ≤ length places.now) × (o + plane_size + 3 * n ≤ length s.old) }
    ensures { s.new ≡ sets s.old o (face_floats (record { plane = w; points = map (point_of (points_at points.now 0 m)) (counts_at places.now at n) })) }
{
    room::put_plane(s, o, w);
    solids::put_corners(points, m, places, at, n, s, o + room::PLANE);
}

// The n faces, up to the first that has no plane.
pub fn put_faces(
    t: Precision,
    points: &[f64],
    m: usize,
    places: &[u64],
    counts: &[u64],
    n: usize,
    s: &mut [f64],
)
    requires { (3 * m ≤ length points.now) × (n ≤ length counts.now) × Placing (counts_at counts.now 0 n) 0 (length places.now) × (plane_size * n + 3 * length places.now ≤ length s.old) }
    ensures { s.new ≡ sets s.old 0 (cell_floats (framed t (points_at points.now 0 m) (faces_at places.now 0 (counts_at counts.now 0 n)))) }
{
    let mut at = 0;
    let mut o = 0;
    for j in 0..n {
        let c = counts[j] as usize;
        let Ok(w) = solids::plane_for(t, points, m, places, at, c) else {
            return;
        };
        put_face(w, points, m, places, at, c, s, o);
        at += c;
        o += room::PLANE + 3 * c;
    }
}

// The check; a solid that passes it stands in s afterwards, as faces with their planes. Its numbers of corners are `counts`.
pub fn checked_cell(
    given: bool,
    t: Precision,
    points: &[f64],
    m: usize,
    places: &[u64],
    counts: &[u64],
    n: usize,
    s: &mut [f64],
    ends: &mut [u64],
    head: &mut [u64],
    next: &mut [u64],
    seen: &mut [u64],
    work: &mut [u64],
    nodes: &mut [u64],
    cuts: &mut [u64],
) -> Result<(), Refusal>
    requires m_in_bounds { (3 * m ≤ length points.now) × (n ≤ length counts.now) × Placing (counts_at counts.now 0 n) 0 (length places.now) }
    requires places_in_bounds { (2 * length places.now ≤ length ends.old) × (2 * length places.now ≤ length next.old) × (length places.now ≤ length nodes.old) }
    requires n_in_bounds { (n ≤ length head.old) × (n ≤ length seen.old) × (n ≤ length work.old) × (n ≤ length nodes.old) × (n < length cuts.old) }
    requires places_in_bounds_2 { plane_size * n + 3 * length places.now ≤ length s.old }
    ensures value { result ≡ verdict_of (check given t (solid_at points.now m places.now counts.now n)) }
    ensures s_after { s.new ≡ stored (check given t (solid_at points.now m places.now counts.now n)) s.old }
{
    check(
        given, t, points, m, places, counts, n, ends, head, next, seen, work, nodes, cuts,
    )?;
    put_faces(t, points, m, places, counts, n, s);
    Ok(())
}
