#![tactic(auto)]

// A polygon is a record of up to 128 corners.
ghost use Rattle.std.specs.Prelude.{◌≡◌, [], ◌+◌, ◌*◌, ◌≤◌, length};
ghost use Rattle.std.specs.Result.{IfOk};
ghost use Rattle.std.proofs.lemmas.List.Edits.{sets};
ghost use Rattle.lists.specs.Walks.{Stops};
ghost use Rattle.space.specs.Near.{near_of};
ghost use Rattle.space.specs.Far.{reach_of};
ghost use Rattle.polygon.specs.Polygons.{polygon, made};
ghost use Rattle.polygon.specs.Memory.{floats, point_at, points_at, far_at};
ghost use Rattle.polygon.specs.Unique.{both, unique};

use refusal::Refusal;
use space::{Closeness, Point3, Precision};

#[derive(Clone, Copy)]
pub struct Polygon {
    pub at: [Point3; 128],
    pub n: usize,
}

pub fn empty() -> Polygon
    ensures { result ≡ polygon [] }
{
    Polygon {
        at: [Point3 {
            x: 0.0,
            y: 0.0,
            z: 0.0,
        }; 128],
        n: 0,
    }
}

pub fn put_point(s: &mut [f64], at: usize, p: Point3)
    requires { at + 3 ≤ length s.old }
    ensures { s.new ≡ sets s.old at (floats p) }
{
    s[at] = p.x;
    s[at + 1] = p.y;
    s[at + 2] = p.z;
}

pub fn get_point(s: &[f64], at: usize) -> Point3
    requires { at + 3 ≤ length s.now }
    ensures { result ≡ point_at s.now at }
{
    Point3 {
        x: s[at],
        y: s[at + 1],
        z: s[at + 2],
    }
}

// The first of m points, from i on, that does not differ from q by g in a coordinate; m where there is none. A loop of its own, so that
// nothing but the test stands in it.
pub fn pass(g: f64, q: Point3, points: &[f64], m: usize, i: usize) -> usize
    requires { (3 * m ≤ length points.now) × (i ≤ m) }
    ensures { Stops (far_at g q points.now) m i result }
{
    for k in i..m {
        let p = get_point(points, 3 * k);
        if !space::is_far(g, q.x - p.x, q.y - p.y, q.z - p.z) {
            return k;
        }
    }
    m
}

// What two tests say together.
#[tactic(auto, unfolding(crate::specs::Unique::both))]
pub fn both(
    s: Result<Closeness, Refusal>,
    c: Result<Closeness, Refusal>,
) -> Result<Closeness, Refusal>
    ensures { result ≡ both s c }
{
    match s? {
        Closeness::Apart => c,
        Closeness::Near => c.and(s),
    }
}

// What is said so far together with q against r, which is not tested where it is certainly apart.
fn compared(
    t: Precision,
    g: f64,
    s: Result<Closeness, Refusal>,
    q: Point3,
    r: Point3,
) -> Result<Closeness, Refusal>
    requires { g ≡ reach_of t }
    ensures { result ≡ both s (near_of t q r) }
{
    if space::is_far(g, q.x - r.x, q.y - r.y, q.z - r.z) {
        return s;
    }
    both(s, space::near(t, q, r))
}

// The n points of a slice from a place on, without those that are near one before them. Both loops stand here, so that no polygon
// is copied for a corner.
pub fn unique(points: &[f64], at: usize, n: usize, t: Precision) -> Result<Polygon, Refusal>
    requires { (n ≤ 128) × (at + 3 * n ≤ length points.now) }
    ensures value { result ≡ made (unique t (points_at points.now at n)) }
    ensures n_bound { IfOk result (λ p. p.n ≤ 128) }
{
    let g = space::reach_of(t);
    let mut out = empty();
    let mut m = 0;
    for i in 0..n {
        let q = get_point(points, at + 3 * i);
        let mut s = Ok(Closeness::Apart);
        for j in 0..m {
            let r = out.at[j];
            s = compared(t, g, s, q, r);
        }
        match s? {
            Closeness::Near => {}
            Closeness::Apart => {
                out.at[m] = q;
                m += 1;
            }
        }
    }
    out.n = m;
    Ok(out)
}
