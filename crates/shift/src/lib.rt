#![tactic(auto)]

// An offset at one vertex and of one plane.
ghost use Rattle.std.specs.Prelude.{◌≡◌, cond, [], ◌<◌};
ghost use Rattle.shift.specs.Shifts.{meeting, noted, noted_if, delta_of, residual, outside, missed, moved_to, flat, moved_by, moved_at, moved_plane};

use interval::Interval;
use refusal::Refusal;
use space::{Plane, Point3, Precision};

// A face that meets a vertex: its normal, and how far it is pushed.
#[derive(Clone, Copy)]
pub struct Push {
    pub normal: Point3,
    pub by: f64,
}

// The first three faces that meet a vertex, and how many there are.
#[derive(Clone, Copy)]
pub struct Meeting {
    pub a: Push,
    pub b: Push,
    pub c: Push,
    pub n: usize,
}

// No face meets the vertex yet.
#[tactic(auto, unfolding(crate::specs::Shifts::meeting))]
pub fn alone() -> Meeting
    ensures { result ≡ meeting [] }
{
    let normal = Point3 {
        x: 0.0,
        y: 0.0,
        z: 0.0,
    };
    let still = Push { normal, by: 0.0 };
    Meeting {
        a: still,
        b: still,
        c: still,
        n: 0,
    }
}

fn chosen(new: bool, p: Push, old: Push) -> Push
    ensures { result ≡ cond new p old }
{
    if new { p } else { old }
}

// One face more.
#[tactic(auto, unfolding(crate::specs::Shifts::noted))]
fn note(m: Meeting, p: Push) -> Meeting
    requires { m.n < 18446744073709551615 }
    ensures { result ≡ noted m p }
{
    let n = m.n;
    let a = m.a;
    let b = m.b;
    let c = m.c;
    Meeting {
        a: chosen(n == 0, p, a),
        b: chosen(n == 1, p, b),
        c: chosen(n == 2, p, c),
        n: n + 1,
    }
}

// A face joins the others where it meets the vertex.
#[tactic(auto, unfolding(crate::specs::Shifts::noted_if))]
pub fn note_if(meets: bool, m: Meeting, p: Push) -> Meeting
    requires { m.n < 18446744073709551615 }
    ensures { result ≡ noted_if meets m p }
{
    if meets {
        return note(m, p);
    }
    m
}

#[tactic(auto, unfolding(crate::specs::Shifts::delta_of))]
fn delta(a: Push, b: Push, c: Push, n: Point3) -> Point3
    ensures { result ≡ delta_of a b c n }
{
    let x = a.normal;
    let y = b.normal;
    let z = c.normal;
    let first = space::times(n, a.by);
    let second = space::times(space::cross(z, x), b.by);
    let third = space::times(space::cross(x, y), c.by);
    space::times(
        space::plus(space::plus(first, second), third),
        1.0 / space::dot(x, n),
    )
}

#[tactic(auto, unfolding(crate::specs::Shifts::residual))]
fn residual(d: Point3, p: Push) -> Interval
    ensures { result ≡ residual d p }
{
    let n = p.normal;
    interval::sub(
        interval::dot(space::coordinates(d), space::coordinates(n)),
        interval::point(p.by),
    )
}

#[tactic(auto, unfolding(crate::specs::Shifts::outside))]
fn is_outside(t: Precision, r: Interval) -> bool
    ensures { result ≡ outside t r }
{
    (r.lo < -t.local) | (t.local < r.hi)
}

// The move d misses the distance of one of the three faces.
fn misses(t: Precision, a: Push, b: Push, c: Push, d: Point3) -> bool
    ensures { result ≡ missed t a b c d }
{
    is_outside(t, residual(d, a)) | (is_outside(t, residual(d, b)) | is_outside(t, residual(d, c)))
}

#[tactic(auto, unfolding(crate::specs::Shifts::moved_to))]
fn moved_to(
    t: Precision,
    a: Push,
    b: Push,
    c: Push,
    p: Point3,
    q: Point3,
) -> Result<Point3, Refusal>
    ensures { result ≡ moved_to t a b c p q }
{
    if misses(t, a, b, c, space::minus(q, p)) {
        return Err(refusal::refuse(26));
    }
    Ok(q)
}

// The determinant of the three normals holds zero.
#[tactic(auto, unfolding(crate::specs::Shifts::flat))]
fn is_flat(a: Push, n: Point3) -> bool
    ensures { result ≡ flat a n }
{
    let x = a.normal;
    interval::holds_zero(interval::dot(space::coordinates(x), space::coordinates(n)))
}

#[tactic(auto, unfolding(crate::specs::Shifts::moved_by))]
fn moved_by(
    t: Precision,
    a: Push,
    b: Push,
    c: Push,
    p: Point3,
    n: Point3,
) -> Result<Point3, Refusal>
    ensures { result ≡ moved_by t a b c p n }
{
    if is_flat(a, n) {
        return Err(refusal::refuse(25));
    }
    moved_to(t, a, b, c, p, space::plus(p, delta(a, b, c, n)))
}

// The vertex p where the faces that meet it are pushed.
#[tactic(auto, unfolding(crate::specs::Shifts::moved_at))]
pub fn moved(t: Precision, p: Point3, m: Meeting) -> Result<Point3, Refusal>
    ensures { result ≡ moved_at t p m }
{
    let n = m.n;
    if n != 3 {
        return Err(refusal::refuse(24));
    }
    let a = m.a;
    let b = m.b;
    let c = m.c;
    let y = b.normal;
    let z = c.normal;
    moved_by(t, a, b, c, p, space::cross(y, z))
}

// The plane of a face, pushed along its normal; its mark stays.
#[tactic(auto, unfolding(crate::specs::Shifts::moved_plane))]
pub fn moved_plane(t: Precision, w: Plane, d: f64) -> Result<Plane, Refusal>
    ensures { result ≡ moved_plane t w d }
{
    let f = w.frame;
    let o = f.origin;
    let x = f.x;
    let z = f.z;
    let made = space::plane_of(t, space::plus(o, space::times(z, d)), z, x);
    space::marked(made, w.mark)
}
