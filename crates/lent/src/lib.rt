#![tactic(auto)]

// Numbers, points and planes at the front of a lent slice, for calls from outside: one that is too short is read as zeros and
// left alone.
ghost use Rattle.std.specs.Prelude.{◌≡◌};
ghost use Rattle.refusal.specs.Outcome.{number_of};
ghost use Rattle.lent.specs.Lent.{yes, stored, number_by, point_by, flat, plane_by, point_stored, plane_stored, plane_in};

use interval::Interval;
use refusal::Refusal;
use space::{Frame, Plane, Point3};

pub fn code(b: bool) -> u64
    ensures { result ≡ yes b }
{
    if b { 1 } else { 0 }
}

// The ends of an interval.
#[tactic(auto, unfolding(crate::specs::Lent::stored))]
pub fn put_ends(out: &mut [f64], i: Interval)
    ensures { out.new ≡ stored out.old i }
{
    if 2 <= out.len() {
        out[0] = i.lo;
        out[1] = i.hi;
    }
}

// 01's number of a verdict.
#[tactic(auto, unfolding(crate::specs::Lent::number_by))]
pub fn number_by(v: Result<(), Refusal>) -> u64
    ensures { result ≡ number_by v }
{
    match v {
        Ok(()) => 0,
        Err(r) => r.number,
    }
}

// The point and the plane that a slice begins with; zeros where it is too short.
#[tactic(auto, unfolding(crate::specs::Lent::point_by))]
pub fn point_by(s: &[f64]) -> Point3
    ensures { result ≡ point_by s.now }
{
    if s.len() < 3 {
        return Point3 {
            x: 0.0,
            y: 0.0,
            z: 0.0,
        };
    }
    polygon::get_point(s, 0)
}

#[tactic(auto, unfolding(crate::specs::Lent::flat))]
pub fn flat() -> Plane
    ensures { result ≡ flat }
{
    let o = Point3 {
        x: 0.0,
        y: 0.0,
        z: 0.0,
    };
    let frame = Frame {
        origin: o,
        x: o,
        y: o,
        z: o,
    };
    Plane { frame, mark: 0.0 }
}

#[tactic(auto, unfolding(crate::specs::Lent::plane_by))]
pub fn plane_by(s: &[f64]) -> Plane
    ensures { result ≡ plane_by s.now }
{
    if s.len() < 12 {
        return flat();
    }
    let frame = room::get_frame(s, 0);
    Plane { frame, mark: 0.0 }
}

#[tactic(auto, unfolding(crate::specs::Lent::point_stored))]
pub fn put_point(out: &mut [f64], p: Point3)
    ensures { out.new ≡ point_stored out.old p }
{
    if 3 <= out.len() {
        polygon::put_point(out, 0, p);
    }
}

#[tactic(auto, unfolding(crate::specs::Lent::plane_stored))]
pub fn put_plane(out: &mut [f64], w: Plane)
    ensures { out.new ≡ plane_stored out.old w }
{
    if 12 <= out.len() {
        room::put_frame(out, 0, w.frame);
    }
}

// The plane, or one of zeros.
#[tactic(auto, unfolding(crate::specs::Lent::plane_in))]
pub fn plane_in(p: Result<Plane, Refusal>) -> Plane
    ensures { result ≡ plane_in p }
{
    match p {
        Ok(w) => w,
        Err(_) => flat(),
    }
}

// 01's number of an outcome.
#[tactic(auto, unfolding(refusal::specs::Outcome::number_of))]
pub fn number_of<T: Copy>(o: Result<T, Refusal>) -> u64
    ensures { result ≡ number_of o }
{
    match o {
        Ok(_) => 0,
        Err(r) => r.number,
    }
}
