#![tactic(auto)]

// The turn at three points of a plane, and a coordinate between two others.
ghost use Rattle.std.specs.Prelude.{◌≡◌};
ghost use Rattle.turns.specs.Turns.{determinant_of, inside, zero_where, turned, orientation_of, in_range, is_positive, is_negative, is_zero};

use interval::{Interval, Sign};
use refusal::Refusal;
use space::Precision;

// A point in the coordinates of a plane.
#[derive(Clone, Copy)]
pub struct Projected {
    pub x: Interval,
    pub y: Interval,
}

#[derive(Clone, Copy)]
pub enum Turn {
    Positive,
    Negative,
    Zero,
}

// (b - a) cross (c - a).
#[tactic(auto, unfolding(crate::specs::Turns::determinant_of))]
fn determinant(a: Projected, b: Projected, c: Projected) -> Interval
    ensures { result ≡ determinant_of a b c }
{
    interval::sub(
        interval::mul(interval::sub(b.x, a.x), interval::sub(c.y, a.y)),
        interval::mul(interval::sub(b.y, a.y), interval::sub(c.x, a.x)),
    )
}

// d lies inside plus or minus m.
fn is_inside(d: Interval, m: f64) -> bool
    ensures { result ≡ inside d m }
{
    (-m <= d.lo) & (d.hi <= m)
}

fn zero_where(small: bool) -> Result<Turn, Refusal>
    ensures { result ≡ zero_where small }
{
    if small {
        return Ok(Turn::Zero);
    }
    Err(refusal::refuse(33))
}

// A certified sign, else Zero where the product is small, else 33.
#[tactic(auto, unfolding(crate::specs::Turns::turned))]
fn turned(s: Sign, small: bool) -> Result<Turn, Refusal>
    ensures { result ≡ turned s small }
{
    match s {
        Sign::Positive => Ok(Turn::Positive),
        Sign::Negative => Ok(Turn::Negative),
        Sign::Zero => Ok(Turn::Zero),
        Sign::Unknown => zero_where(small),
    }
}

#[tactic(auto, unfolding(crate::specs::Turns::orientation_of))]
pub fn orientation(p: Precision, a: Projected, b: Projected, c: Projected) -> Result<Turn, Refusal>
    ensures { result ≡ orientation_of p a b c }
{
    let d = determinant(a, b, c);
    turned(interval::sign_of(d), is_inside(d, p.local * p.local))
}

// z lies between a and b, within local.
#[tactic(auto, unfolding(crate::specs::Turns::in_range))]
pub fn contains_range(p: Precision, a: Interval, b: Interval, z: Interval) -> bool
    ensures { result ≡ in_range p a b z }
{
    let low = float::lesser(a.lo, b.lo) - p.local;
    let high = float::greater(a.hi, b.hi) + p.local;
    (low <= z.hi) & (z.lo <= high)
}

pub fn is_positive(s: Result<Turn, Refusal>) -> bool
    ensures { result ≡ is_positive s }
{
    match s {
        Ok(turn) => match turn {
            Turn::Positive => true,
            Turn::Negative => false,
            Turn::Zero => false,
        },
        Err(_) => false,
    }
}

pub fn is_negative(s: Result<Turn, Refusal>) -> bool
    ensures { result ≡ is_negative s }
{
    match s {
        Ok(turn) => match turn {
            Turn::Positive => false,
            Turn::Negative => true,
            Turn::Zero => false,
        },
        Err(_) => false,
    }
}

pub fn is_zero(s: Result<Turn, Refusal>) -> bool
    ensures { result ≡ is_zero s }
{
    match s {
        Ok(turn) => match turn {
            Turn::Positive => false,
            Turn::Negative => false,
            Turn::Zero => true,
        },
        Err(_) => false,
    }
}
