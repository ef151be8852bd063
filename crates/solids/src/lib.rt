#![tactic(auto)]

// The check of a solid's points and planes.
ghost use Rattle.std.specs.Prelude.{◌≡◌, true, false, map, ◌+◌, ◌*◌, ◌≤◌, ◌<◌, length, drop, Ok};
ghost use Rattle.std.proofs.lemmas.List.Edits.{sets};
ghost use Rattle.refusal.specs.Outcome.{unless, verdict_of};
ghost use Rattle.polygon.specs.Memory.{floats_of, point_at, points_at};
ghost use Rattle.room.specs.Rooms.{counts_at};
ghost use Rattle.solids.specs.Apart.{not_near, apart_from, apart_all};
ghost use Rattle.solids.specs.Sides.{has, judge_side, some_below, face_sides};
ghost use Rattle.solids.specs.Frames.{point_of, plane_for, faces_at, framed_all, Placing, sides_by, sides_all};
ghost use Rattle.lists.specs.Walks.{all};
ghost use Rattle.solids.specs.Order.{fair_all, within, counted_all, shaped};
ghost use Rattle.solids.specs.Apart.{first_of};
ghost use Rattle.solids.specs.Dents.{flat_of, not_dented, flat_at, face_turns, turns_if};

use refusal::Refusal;
use side::Side;
use space::{Closeness, Frame, Plane, Point3, Precision};
use turns::{Projected, Turn};

#[tactic(auto, unfolding(crate::specs::Apart::not_near))]
fn not_near(c: Result<Closeness, Refusal>) -> Result<(), Refusal>
    ensures { result ≡ not_near c }
{
    match c? {
        Closeness::Near => Err(refusal::refuse(4)),
        Closeness::Apart => Ok(()),
    }
}

// The point at place i against each later one of n.
fn apart_from(t: Precision, points: &[f64], n: usize, i: usize) -> Result<(), Refusal>
    requires { (i < n) × (3 * n ≤ length points.now) }
    ensures { result ≡ apart_from t (point_at points.now (3 * i)) (drop (i + 1) (points_at points.now 0 n)) }
{
    let q = polygon::get_point(points, 3 * i);
    for j in i + 1..n {
        let p = polygon::get_point(points, 3 * j);
        not_near(space::near(t, q, p))?;
    }
    Ok(())
}

// No two of n points are near.
pub fn all_apart(t: Precision, points: &[f64], n: usize) -> Result<(), Refusal>
    requires { 3 * n ≤ length points.now }
    ensures { result ≡ apart_all t (points_at points.now 0 n) }
{
    for i in 0..n {
        apart_from(t, points, n, i)?;
    }
    Ok(())
}

// The place x is one of the n from a place on.
pub fn is_corner(places: &[u64], at: usize, n: usize, x: usize) -> bool
    requires { at + n ≤ length places.now }
    ensures { result ≡ has x false (counts_at places.now at n) }
{
    places[at..at + n].contains(&(x as u64))
}

fn below_unless(own: bool) -> Result<bool, Refusal>
    ensures { result ≡ unless own 4 (Ok true) }
{
    if own {
        return Err(refusal::refuse(4));
    }
    Ok(true)
}

#[tactic(auto, unfolding(crate::specs::Sides::judge_side))]
fn judge_side(s: Result<Side, Refusal>, own: bool, b: bool) -> Result<bool, Refusal>
    ensures { result ≡ judge_side s own b }
{
    match s? {
        Side::Positive => Err(refusal::refuse(4)),
        Side::Negative => below_unless(own),
        Side::Zero => Ok(b),
    }
}

#[tactic(auto, unfolding(crate::specs::Sides::some_below))]
fn some_below(b: bool) -> Result<(), Refusal>
    ensures { result ≡ some_below (Ok b) }
{
    if b {
        return Ok(());
    }
    Err(refusal::refuse(4))
}

// The m points against the face of plane w, whose n corners have the places from a place on.
pub fn face_sides(
    t: Precision,
    w: Plane,
    places: &[u64],
    at: usize,
    n: usize,
    points: &[f64],
    m: usize,
) -> Result<(), Refusal>
    requires { (at + n ≤ length places.now) × (3 * m ≤ length points.now) }
    ensures { result ≡ face_sides t w (counts_at places.now at n) (points_at points.now 0 m) }
{
    let mut b = false;
    for x in 0..m {
        let q = polygon::get_point(points, 3 * x);
        let own = is_corner(places, at, n, x);
        b = judge_side(side::side_of(w, q, t), own, b)?;
    }
    some_below(b)
}

// The point at a place of m; the origin where there is none.
pub fn point_of(points: &[f64], m: usize, x: usize) -> Point3
    requires { 3 * m ≤ length points.now }
    ensures { result ≡ point_of (points_at points.now 0 m) x }
{
    if x < m {
        return polygon::get_point(points, 3 * x);
    }
    Point3 {
        x: 0.0,
        y: 0.0,
        z: 0.0,
    }
}

// The points of a face's n corners, whose places stand from a place on, go to s from o on.
pub fn put_corners(
    points: &[f64],
    m: usize,
    places: &[u64],
    at: usize,
    n: usize,
    s: &mut [f64],
    o: usize,
)
    requires { (3 * m ≤ length points.now) × (at + n ≤ length places.now) × (o + 3 * n ≤ length s.old) }
    ensures { s.new ≡ sets s.old o (floats_of (map (point_of (points_at points.now 0 m)) (counts_at places.now at n))) }
{
    for i in 0..n {
        let q = point_of(points, m, places[at + i] as usize);
        polygon::put_point(s, o + 3 * i, q);
    }
}

// The plane of the face whose n corners have the places from a place on.
pub fn plane_for(
    t: Precision,
    points: &[f64],
    m: usize,
    places: &[u64],
    at: usize,
    n: usize,
) -> Result<Plane, Refusal>
    requires { (3 * m ≤ length points.now) × (at + n ≤ length places.now) }
    ensures { result ≡ plane_for t (points_at points.now 0 m) (counts_at places.now at n) }
{
    if n < 3 {
        return Err(refusal::refuse(5));
    }
    let a = point_of(points, m, places[at] as usize);
    let b = point_of(points, m, places[at + 1] as usize);
    let c = point_of(points, m, places[at + 2] as usize);
    space::face_plane(t, a, b, c)
}

// Each of n faces has a frame; their corners' places stand one after another.
pub fn all_framed(
    t: Precision,
    points: &[f64],
    m: usize,
    places: &[u64],
    counts: &[u64],
    n: usize,
) -> Result<(), Refusal>
    requires { (3 * m ≤ length points.now) × (n ≤ length counts.now) × Placing (counts_at counts.now 0 n) 0 (length places.now) }
    ensures { result ≡ framed_all t (points_at points.now 0 m) (faces_at places.now 0 (counts_at counts.now 0 n)) }
{
    let mut at = 0;
    for j in 0..n {
        let c = counts[j] as usize;
        plane_for(t, points, m, places, at, c)?;
        at += c;
    }
    Ok(())
}

// A point in the coordinates of a face: rounded there, and then taken as they are.
#[tactic(auto, unfolding(crate::specs::Dents::flat_of))]
fn flat(f: Frame, q: Point3) -> Projected
    ensures { result ≡ flat_of f q }
{
    let l = space::to_local(f, q);
    Projected {
        x: interval::point(l.x),
        y: interval::point(l.y),
    }
}

// A face may turn left at a corner or go straight on.
#[tactic(auto, unfolding(crate::specs::Dents::not_dented))]
fn not_dented(s: Result<Turn, Refusal>) -> Result<(), Refusal>
    ensures { result ≡ not_dented s }
{
    let turn = s?;
    match turn {
        Turn::Positive => Ok(()),
        Turn::Negative => Err(refusal::refuse(4)),
        Turn::Zero => Ok(()),
    }
}

// The i-th corner of a face of n, counted round it, in the coordinates of the face's plane.
fn flat_at(
    w: Plane,
    places: &[u64],
    at: usize,
    n: usize,
    points: &[f64],
    m: usize,
    i: usize,
) -> Projected
    requires { (at + n ≤ length places.now) × (3 * m ≤ length points.now) × (0 < n) }
    ensures { result ≡ flat_at w (counts_at places.now at n) (points_at points.now 0 m) i }
{
    let q = point_of(points, m, places[at + i % n] as usize);
    flat(w.frame, q)
}

// Each three consecutive corners of a face of n, round it. The last two of three are the first two of the next.
fn face_turns(
    t: Precision,
    w: Plane,
    places: &[u64],
    at: usize,
    n: usize,
    points: &[f64],
    m: usize,
) -> Result<(), Refusal>
    requires { (at + n ≤ length places.now) × (3 * m ≤ length points.now) }
    ensures { result ≡ face_turns t w (counts_at places.now at n) (points_at points.now 0 m) }
{
    if n == 0 {
        return Ok(());
    }
    let mut a = flat_at(w, places, at, n, points, m, 0);
    let mut b = flat_at(w, places, at, n, points, m, 1);
    for k in 0..n {
        let c = flat_at(w, places, at, n, points, m, k + 2);
        not_dented(turns::orientation(t, a, b, c))?;
        a = b;
        b = c;
    }
    Ok(())
}

// The turns of a face that is given; one that was cut or moved is not tested again.
#[tactic(auto, unfolding(crate::specs::Dents::turns_if))]
fn turns_if(
    given: bool,
    t: Precision,
    w: Plane,
    places: &[u64],
    at: usize,
    n: usize,
    points: &[f64],
    m: usize,
) -> Result<(), Refusal>
    requires { (at + n ≤ length places.now) × (3 * m ≤ length points.now) }
    ensures { result ≡ turns_if given t w (counts_at places.now at n) (points_at points.now 0 m) }
{
    if given {
        return face_turns(t, w, places, at, n, points, m);
    }
    Ok(())
}

// The sides of all points against a face, then, where it is given, its turns.
#[tactic(auto, unfolding(crate::specs::Apart::first_of))]
fn face_checked(
    given: bool,
    t: Precision,
    w: Plane,
    places: &[u64],
    at: usize,
    n: usize,
    points: &[f64],
    m: usize,
) -> Result<(), Refusal>
    requires { (at + n ≤ length places.now) × (3 * m ≤ length points.now) }
    ensures { result ≡ first_of (face_sides t w (counts_at places.now at n) (points_at points.now 0 m)) (turns_if given t w (counts_at places.now at n) (points_at points.now 0 m)) }
{
    face_sides(t, w, places, at, n, points, m)?;
    turns_if(given, t, w, places, at, n, points, m)
}

// The points against each of n faces, and the turns of each that is given.
pub fn all_sides(
    given: bool,
    t: Precision,
    points: &[f64],
    m: usize,
    places: &[u64],
    counts: &[u64],
    n: usize,
) -> Result<(), Refusal>
    requires { (3 * m ≤ length points.now) × (n ≤ length counts.now) × Placing (counts_at counts.now 0 n) 0 (length places.now) }
    ensures { result ≡ sides_all given t (points_at points.now 0 m) (faces_at places.now 0 (counts_at counts.now 0 n)) }
{
    let mut at = 0;
    for j in 0..n {
        let c = counts[j] as usize;
        let w = plane_for(t, points, m, places, at, c)?;
        face_checked(given, t, w, places, at, c, points, m)?;
        at += c;
    }
    Ok(())
}

// Each of m points is finite and at most 2^20 in size.
pub fn all_fair(points: &[f64], m: usize) -> bool
    requires { 3 * m ≤ length points.now }
    ensures { result ≡ fair_all (points_at points.now 0 m) }
{
    let mut fine = true;
    for i in 0..m {
        fine = fine & space::is_fair_point(polygon::get_point(points, 3 * i));
    }
    fine
}

fn is_within(low: usize, high: usize, n: usize) -> bool
    ensures { result ≡ within low high n }
{
    (low <= n) & (n <= high)
}

// Each of n faces has 3 to 64 corners.
fn all_polygons(counts: &[u64], n: usize) -> bool
    requires { n ≤ length counts.now }
    ensures { result ≡ all (within 3 64) true (counts_at counts.now 0 n) }
{
    let mut fine = true;
    for j in 0..n {
        fine = fine & is_within(3, 64, counts[j] as usize);
    }
    fine
}

// The counts of an input solid: m points, and n faces.
#[tactic(auto, unfolding(crate::specs::Order::counted_all))]
pub fn is_counted(m: usize, counts: &[u64], n: usize) -> bool
    requires { n ≤ length counts.now }
    ensures { result ≡ counted_all m n (counts_at counts.now 0 n) }
{
    (is_within(4, 128, m) & is_within(4, 64, n)) & all_polygons(counts, n)
}

// Frames, then pairs of points, then sides and, where the solid is given, turns.
#[tactic(auto, unfolding(crate::specs::Order::shaped, crate::specs::Apart::first_of))]
pub fn shape(
    given: bool,
    t: Precision,
    points: &[f64],
    m: usize,
    places: &[u64],
    counts: &[u64],
    n: usize,
) -> Result<(), Refusal>
    requires { (3 * m ≤ length points.now) × (n ≤ length counts.now) × Placing (counts_at counts.now 0 n) 0 (length places.now) }
    ensures { result ≡ shaped given t (points_at points.now 0 m) (faces_at places.now 0 (counts_at counts.now 0 n)) }
{
    all_framed(t, points, m, places, counts, n)?;
    all_apart(t, points, m)?;
    all_sides(given, t, points, m, places, counts, n)
}
