#![tactic(auto)]

// How a corner and an edge meet the plane of a cut.
ghost use Rattle.std.specs.Prelude.{◌≡◌};
ghost use Rattle.refusal.specs.Outcome.{then};
ghost use Rattle.edge.specs.Meets.{unseen, noted, at_corner, held_back, corner_meet, is_positive, is_negative, crosses, vague, no_ratio, between, landed, unless_vague, cut_meet, edge_meet};

use interval::Sign;
use refusal::Refusal;
use side::Side;
use space::{Plane, Point3, Precision};

// Keep and Touch are the corner itself, Touch one that stands on the cap too; Cut is a new corner on the plane.
#[derive(Clone, Copy)]
pub enum Meet {
    Keep,
    Drop,
    Touch,
    Cut(f64, f64, f64),
}

// Whether corners lie on the negative and on the positive side.
#[derive(Clone, Copy)]
pub struct Seen {
    pub negative: bool,
    pub positive: bool,
}

pub fn unseen() -> Seen
    ensures { result ≡ unseen }
{
    Seen {
        negative: false,
        positive: false,
    }
}

// One corner more; a refusal stays.
#[tactic(auto, unfolding(crate::specs::Meets::noted))]
pub fn note(s: Result<Seen, Refusal>, side: Result<Side, Refusal>) -> Result<Seen, Refusal>
    ensures { result ≡ then s (λ x. noted x side) }
{
    let seen = s?;
    match side? {
        Side::Positive => Ok(Seen {
            negative: seen.negative,
            positive: true,
        }),
        Side::Negative => Ok(Seen {
            negative: true,
            positive: seen.positive,
        }),
        Side::Zero => Ok(seen),
    }
}

#[tactic(auto, unfolding(crate::specs::Meets::at_corner))]
fn at_corner(s: Result<Side, Refusal>) -> Result<Meet, Refusal>
    ensures { result ≡ at_corner s }
{
    match s? {
        Side::Positive => Ok(Meet::Drop),
        Side::Negative => Ok(Meet::Keep),
        Side::Zero => Ok(Meet::Touch),
    }
}

#[tactic(auto, unfolding(crate::specs::Meets::held_back))]
fn held_back(s: Result<Side, Refusal>, m: Result<Meet, Refusal>) -> Result<Meet, Refusal>
    ensures { result ≡ held_back s m }
{
    match s? {
        Side::Positive => m,
        Side::Negative => m,
        Side::Zero => m,
    }
}

// What the corner at the edge's start gives, both ends being classified first.
pub fn corner_meet(a: Result<Side, Refusal>, b: Result<Side, Refusal>) -> Result<Meet, Refusal>
    ensures { result ≡ corner_meet a b }
{
    held_back(a, held_back(b, at_corner(a)))
}

fn is_positive(s: Result<Side, Refusal>) -> bool
    ensures { result ≡ is_positive s }
{
    match s {
        Ok(side) => match side {
            Side::Positive => true,
            Side::Negative => false,
            Side::Zero => false,
        },
        Err(_) => false,
    }
}

fn is_negative(s: Result<Side, Refusal>) -> bool
    ensures { result ≡ is_negative s }
{
    match s {
        Ok(side) => match side {
            Side::Positive => false,
            Side::Negative => true,
            Side::Zero => false,
        },
        Err(_) => false,
    }
}

#[tactic(auto, unfolding(crate::specs::Meets::crosses))]
fn crosses(a: Result<Side, Refusal>, b: Result<Side, Refusal>) -> bool
    ensures { result ≡ crosses a b }
{
    match a {
        Ok(side) => match side {
            Side::Positive => is_negative(b),
            Side::Negative => is_positive(b),
            Side::Zero => false,
        },
        Err(_) => false,
    }
}

fn is_vague(s: Sign) -> bool
    ensures { result ≡ vague s }
{
    match s {
        Sign::Positive => false,
        Sign::Negative => false,
        Sign::Zero => false,
        Sign::Unknown => true,
    }
}

fn has_no_ratio(plane: Plane, a: Point3, b: Point3) -> bool
    ensures { result ≡ no_ratio plane a b }
{
    let d = interval::sub(side::distance(plane, a), side::distance(plane, b));
    is_vague(interval::sign_of(d)) | interval::holds_zero(d)
}

fn between(plane: Plane, a: Point3, b: Point3) -> Point3
    ensures { result ≡ between plane a b }
{
    let da = side::height(plane, a);
    let db = side::height(plane, b);
    space::plus(a, space::times(space::minus(b, a), da / (da - db)))
}

#[tactic(auto, unfolding(crate::specs::Meets::landed))]
fn landed(s: Result<Side, Refusal>, q: Point3) -> Result<Meet, Refusal>
    ensures { result ≡ landed s q }
{
    match s? {
        Side::Positive => Err(refusal::refuse(9)),
        Side::Negative => Err(refusal::refuse(9)),
        Side::Zero => Ok(Meet::Cut(q.x, q.y, q.z)),
    }
}

fn unless_vague(bad: bool, m: Result<Meet, Refusal>) -> Result<Meet, Refusal>
    ensures { result ≡ unless_vague bad m }
{
    if bad {
        return Err(refusal::refuse(8));
    }
    m
}

// The point where an edge crosses the plane; it has to be Zero against it.
fn cut_meet(t: Precision, plane: Plane, a: Point3, b: Point3) -> Result<Meet, Refusal>
    ensures { result ≡ cut_meet t plane a b }
{
    let q = between(plane, a, b);
    unless_vague(
        has_no_ratio(plane, a, b),
        landed(side::side_of(plane, q, t), q),
    )
}

// What the rest of the edge gives.
pub fn edge_meet(
    t: Precision,
    plane: Plane,
    a: Point3,
    b: Point3,
    sa: Result<Side, Refusal>,
    sb: Result<Side, Refusal>,
) -> Result<Meet, Refusal>
    ensures { result ≡ edge_meet t plane a b sa sb }
{
    if crosses(sa, sb) {
        return cut_meet(t, plane, a, b);
    }
    Ok(Meet::Drop)
}
