#![tactic(auto)]

// On which side of a plane a point lies.
ghost use Rattle.std.specs.Prelude.{◌≡◌};
ghost use Rattle.side.specs.Sides.{along_i, distance_of, height_of, is_positive, is_negative, within, first_of, classed, side_of, opposite_of};

use interval::{Interval, Sign};
use refusal::Refusal;
use space::{Plane, Point3, Precision};

#[derive(Clone, Copy)]
pub enum Side {
    Positive,
    Negative,
    Zero,
}

// The interval from o to x, times z.
fn along(x: f64, o: f64, z: f64) -> Interval
    ensures { result ≡ along_i x o z }
{
    interval::mul(
        interval::sub(interval::point(x), interval::point(o)),
        interval::point(z),
    )
}

// The interval of the distance from the plane, outward positive. Axis by axis and not through arrays: so the compiler sees that the
// origin and the normal are points, and halves the products.
pub fn distance(plane: Plane, p: Point3) -> Interval
    ensures { result ≡ distance_of plane p }
{
    let frame = plane.frame;
    let o = frame.origin;
    let z = frame.z;
    interval::add(
        interval::add(along(p.x, o.x, z.x), along(p.y, o.y, z.y)),
        along(p.z, o.z, z.z),
    )
}

// The same distance, rounded at each operation.
pub fn height(plane: Plane, p: Point3) -> f64
    ensures { result ≡ height_of plane p }
{
    let frame = plane.frame;
    space::dot(frame.z, space::minus(p, frame.origin))
}

pub fn is_positive(s: Sign) -> bool
    ensures { result ≡ is_positive s }
{
    match s {
        Sign::Positive => true,
        Sign::Negative => false,
        Sign::Zero => false,
        Sign::Unknown => false,
    }
}

fn is_negative(s: Sign) -> bool
    ensures { result ≡ is_negative s }
{
    match s {
        Sign::Positive => false,
        Sign::Negative => true,
        Sign::Zero => false,
        Sign::Unknown => false,
    }
}

fn is_within(d: Interval, local: f64) -> bool
    ensures { result ≡ within d local }
{
    (-local <= d.lo) & (d.hi <= local)
}

// The first of the three that holds.
fn first_of(positive: bool, negative: bool, zero: bool) -> Result<Side, Refusal>
    ensures { result ≡ first_of positive negative zero }
{
    if positive {
        return Ok(Side::Positive);
    }
    if negative {
        return Ok(Side::Negative);
    }
    if zero {
        return Ok(Side::Zero);
    }
    Err(refusal::refuse(7))
}

fn classify(d: Interval, local: f64) -> Result<Side, Refusal>
    ensures { result ≡ classed d local }
{
    let tube = interval::point(local);
    let positive = is_positive(interval::sign_of(interval::sub(d, tube)));
    let negative = is_negative(interval::sign_of(interval::add(d, tube)));
    first_of(positive, negative, is_within(d, local))
}

pub fn side_of(plane: Plane, p: Point3, precision: Precision) -> Result<Side, Refusal>
    ensures { result ≡ side_of precision plane p }
{
    classify(distance(plane, p), precision.local)
}

// The same plane seen from its other side; its mark stays.
pub fn opposite(plane: Plane, precision: Precision) -> Result<Plane, Refusal>
    ensures { result ≡ opposite_of precision plane }
{
    let frame = plane.frame;
    let made = space::plane_of(precision, frame.origin, space::negated(frame.z), frame.x);
    space::marked(made, plane.mark)
}
