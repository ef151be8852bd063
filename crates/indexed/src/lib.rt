#![tactic(auto)]

// The points of a cell, each once, and its faces by their places among them; and so those of all cells of an arrangement.
ghost use Rattle.std.specs.Prelude.{◌≡◌, ◌+◌, ◌*◌, ◌≤◌, ◌<◌, length, Ok};
ghost use Rattle.refusal.specs.Outcome.{unless};
ghost use Rattle.polygon.specs.Memory.{points_at};
ghost use Rattle.room.specs.Rooms.{cell_at, counts_at};
ghost use Rattle.indexed.specs.Indexed.{place_in, met, only_in, search_by, index_point, index_points, index_faces, indexed};
ghost use Rattle.indexed.specs.Stored.{joined_at, more, Pointed, Placed, Stored, Fits};

use refusal::Refusal;
use space::{Closeness, Point3, Precision};

// Which near point is taken: the first, or the only one, where a second refuses.
#[derive(Clone, Copy)]
pub enum Pick {
    First,
    Only,
}

// The place of the first of m points that is near q, or m.
fn place_of(t: Precision, q: Point3, points: &[f64], m: usize) -> Result<usize, Refusal>
    requires { 3 * m ≤ length points.now }
    ensures { result ≡ place_in t q 0 (points_at points.now 0 m) }
{
    let g = space::reach_of(t);
    let mut i = polygon::pass(g, q, points, m, 0);
    // i jumps over the points that are certainly apart, so this is no counting loop.
    while i < m {
        let p = polygon::get_point(points, 3 * i);
        match space::near(t, q, p)? {
            Closeness::Near => return Ok(i),
            Closeness::Apart => {}
        }
        i = polygon::pass(g, q, points, m, i + 1);
    }
    Ok(i)
}

// 13 where one was found before.
fn once(before: bool, i: usize) -> Result<usize, Refusal>
    ensures { result ≡ unless before 13 (Ok i) }
{
    if before {
        return Err(refusal::refuse(13));
    }
    Ok(i)
}

// What is found among m points, h so far (m: none), once the i-th is met.
#[tactic(auto, unfolding(crate::specs::Indexed::met))]
fn met(near: Result<Closeness, Refusal>, m: usize, h: usize, i: usize) -> Result<usize, Refusal>
    ensures { result ≡ met near m h i }
{
    match near? {
        Closeness::Near => once(h != m, i),
        Closeness::Apart => Ok(h),
    }
}

// The place of the one of m points that is near q, or m; every point is tested.
fn only_place(t: Precision, q: Point3, points: &[f64], m: usize) -> Result<usize, Refusal>
    requires { 3 * m ≤ length points.now }
    ensures { result ≡ only_in t q (points_at points.now 0 m) }
{
    let g = space::reach_of(t);
    let mut h = m;
    let mut i = polygon::pass(g, q, points, m, 0);
    // i jumps here too.
    while i < m {
        let p = polygon::get_point(points, 3 * i);
        h = met(space::near(t, q, p), m, h, i)?;
        i = polygon::pass(g, q, points, m, i + 1);
    }
    Ok(h)
}

#[tactic(auto, unfolding(crate::specs::Indexed::search_by))]
fn find(pick: Pick, t: Precision, q: Point3, points: &[f64], m: usize) -> Result<usize, Refusal>
    requires { 3 * m ≤ length points.now }
    ensures { result ≡ search_by pick t q (points_at points.now 0 m) }
{
    match pick {
        Pick::First => place_of(t, q, points, m),
        Pick::Only => only_place(t, q, points, m),
    }
}

// A new point behind the m others; returns how many there are.
fn join(points: &mut [f64], m: usize, q: Point3, new: bool) -> usize
    requires { 3 * m + 3 ≤ length points.old }
    ensures { (result ≡ more m new) × (points.new ≡ joined_at points.old m q new) }
{
    if new {
        polygon::put_point(points, 3 * m, q);
        return m + 1;
    }
    m
}

// One corner: its place goes to places[k], and a new point behind the m others.
fn index_point(
    pick: Pick,
    t: Precision,
    q: Point3,
    points: &mut [f64],
    m: usize,
    places: &mut [u64],
    k: usize,
) -> Result<usize, Refusal>
    requires { (3 * m + 3 ≤ length points.old) × (k < length places.old) }
    ensures { Pointed (search_by pick t q (points_at points.old 0 m)) m k q points.old places.old points.new places.new result }
{
    let i = find(pick, t, q, points, m)?;
    places[k] = i as u64;
    Ok(join(points, m, q, i == m))
}

// The n corners of a face: their places go to `places` from k on. Returns how many points there are.
fn index_face(
    pick: Pick,
    t: Precision,
    s: &[f64],
    at: usize,
    n: usize,
    points: &mut [f64],
    m: usize,
    places: &mut [u64],
    k: usize,
) -> Result<usize, Refusal>
    requires { (at + 3 * n ≤ length s.now) × (3 * m + 3 * n ≤ length points.old) × (k + n ≤ length places.old) }
    ensures { Placed (index_points (search_by pick t) (points_at points.old 0 m) (points_at s.now at n)) m n k points.old places.old points.new places.new result }
{
    let mut c = m;
    for j in 0..n {
        let q = polygon::get_point(s, at + 3 * j);
        c = index_point(pick, t, q, points, c, places, k + j)?;
    }
    Ok(c)
}

// The points of the n faces at a place, each once, go to `points`, and the places of the faces' corners, face after face, to
// `places`. Returns how many points there are.
pub fn index_faces(
    pick: Pick,
    t: Precision,
    s: &[f64],
    at: usize,
    counts: &[u64],
    first: usize,
    n: usize,
    points: &mut [f64],
    places: &mut [u64],
) -> Result<usize, Refusal>
    requires { Fits s.now counts.now at first n points.old places.old }
    ensures { Stored (index_faces (search_by pick t) (cell_at s.now at (counts_at counts.now first n))) points.old places.old points.new places.new result }
{
    let mut m = 0;
    let mut k = 0;
    let mut o = at;
    for j in 0..n {
        let c = counts[first + j] as usize;
        m = index_face(pick, t, s, o + room::PLANE, c, points, m, places, k)?;
        k += c;
        o += room::PLANE + 3 * c;
    }
    Ok(m)
}

// The points of the cell of n faces at a place and its faces by their places, as above; the first near point wins.
pub fn indexed(
    t: Precision,
    s: &[f64],
    at: usize,
    counts: &[u64],
    first: usize,
    n: usize,
    points: &mut [f64],
    places: &mut [u64],
) -> Result<usize, Refusal>
    requires { Fits s.now counts.now at first n points.old places.old }
    ensures { Stored (indexed t (cell_at s.now at (counts_at counts.now first n))) points.old places.old points.new places.new result }
{
    index_faces(Pick::First, t, s, at, counts, first, n, points, places)
}
