#![tactic(auto)]

// One face of a cell against the plane of a cut: the sides of its corners, and the ring of corners that is left of it.
// The ring and the points of the cap stand at the front of two lent slices, so that no polygon is copied for a corner;
// what these slices hold further on is of no account.
ghost use Rattle.std.specs.Prelude.{◌≡◌, List, ◌+◌, ◌*◌, ◌≤◌, length, Float};
ghost use Rattle.refusal.specs.Outcome.{then, walk};
ghost use Rattle.polygon.specs.Memory.{points_at};
ghost use Rattle.ring.specs.Rings.{sign_one, push_both, pushed, cut_edge, cut_ring, Roomy, Added, Step, FaceStep, CapStep, Rung};

use edge::{Meet, Seen};
use refusal::Refusal;
use space::{Plane, Point3, Precision};

// How many corners the ring has, and how many points the cap.
#[derive(Clone, Copy)]
pub struct Ringed {
    pub corners: usize,
    pub caps: usize,
}

// The sides of n corners more; a refusal stays.
pub fn sign_face(
    t: Precision,
    plane: Plane,
    src: &[f64],
    at: usize,
    n: usize,
    s: Result<Seen, Refusal>,
) -> Result<Seen, Refusal>
    requires { at + 3 * n ≤ length src.now }
    ensures { result ≡ then s (λ x. walk (sign_one t plane) x (points_at src.now at n)) }
{
    let seen = s?;
    let mut out = seen;
    for i in 0..n {
        let q = polygon::get_point(src, at + 3 * i);
        out = edge::note(Ok(out), side::side_of(plane, q, t))?;
    }
    Ok(out)
}

// A point behind the n points of a slice: 12 where there are as many as the limit.
fn add_point(limit: usize, n: usize, q: Point3, s: &mut [f64]) -> Result<usize, Refusal>
    requires { (n ≤ limit) × (3 * limit ≤ length s.old) }
    ensures { Added limit q n result s.old s.new }
{
    if limit <= n {
        return Err(refusal::refuse(12));
    }
    polygon::put_point(s, 3 * n, q);
    Ok(n + 1)
}

fn push_face(s: Ringed, q: Point3, face: &mut [f64]) -> Result<Ringed, Refusal>
    requires { (s.corners ≤ 128) × (s.caps ≤ 1024) × (384 ≤ length face.old) }
    ensures { FaceStep q s result face.old face.new }
{
    let corners = add_point(128, s.corners, q, face)?;
    Ok(Ringed {
        corners,
        caps: s.caps,
    })
}

fn push_cap(s: Ringed, q: Point3, cap: &mut [f64]) -> Result<Ringed, Refusal>
    requires { (s.corners ≤ 128) × (s.caps ≤ 1024) × (3072 ≤ length cap.old) }
    ensures { CapStep q s result cap.old cap.new }
{
    let caps = add_point(1024, s.caps, q, cap)?;
    Ok(Ringed {
        corners: s.corners,
        caps,
    })
}

fn push_both(s: Ringed, q: Point3, face: &mut [f64], cap: &mut [f64]) -> Result<Ringed, Refusal>
    requires { Roomy s face.old cap.old }
    ensures { Step (λ x. push_both x q) s result face.old cap.old face.new cap.new }
{
    let first = push_face(s, q, face)?;
    push_cap(first, q, cap)
}

// What an edge gives is added to the ring and to the cap.
fn push(
    s: Ringed,
    a: Point3,
    m: Result<Meet, Refusal>,
    face: &mut [f64],
    cap: &mut [f64],
) -> Result<Ringed, Refusal>
    requires { Roomy s face.old cap.old }
    ensures { Step (λ x. pushed x a m) s result face.old cap.old face.new cap.new }
{
    match m? {
        Meet::Keep => push_face(s, a, face),
        Meet::Drop => Ok(s),
        Meet::Touch => push_both(s, a, face, cap),
        Meet::Cut(x, y, z) => {
            let q = Point3 { x, y, z };
            push_both(s, q, face, cap)
        }
    }
}

// The corner at the edge's start, and the point where the edge crosses the plane.
fn cut_edge(
    t: Precision,
    plane: Plane,
    a: Point3,
    b: Point3,
    s: Ringed,
    face: &mut [f64],
    cap: &mut [f64],
) -> Result<Ringed, Refusal>
    requires { Roomy s face.old cap.old }
    ensures { Step (λ x. cut_edge t plane x (record { from = a; to = b })) s result face.old cap.old face.new cap.new }
{
    let sa = side::side_of(plane, a, t);
    let sb = side::side_of(plane, b, t);
    let corner = edge::corner_meet(sa, sb);
    let first = push(s, a, corner, face, cap)?;
    let crossing = edge::edge_meet(t, plane, a, b, sa, sb);
    push(first, a, crossing, face, cap)
}

// What is left of a face of n corners, and the points that it adds to the cap, which has some already.
pub fn cut_ring(
    t: Precision,
    plane: Plane,
    src: &[f64],
    at: usize,
    n: usize,
    face: &mut [f64],
    cap: &mut [f64],
    caps: usize,
) -> Result<Ringed, Refusal>
    requires { (at + 3 * n ≤ length src.now) × (384 ≤ length face.old) × (3072 ≤ length cap.old) × (caps ≤ 1024) }
    ensures { Rung (cut_ring t plane (points_at cap.old 0 caps) (points_at src.now at n)) result face.new cap.new }
{
    let mut s = Ringed { corners: 0, caps };
    for i in 0..n {
        let j = (i + 1) % n;
        let a = polygon::get_point(src, at + 3 * i);
        let b = polygon::get_point(src, at + 3 * j);
        s = cut_edge(t, plane, a, b, s, face, cap)?;
    }
    Ok(s)
}
