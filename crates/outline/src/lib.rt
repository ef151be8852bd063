#![tactic(auto)]

// The outline of a facet in the coordinates of its plane.
ghost use Rattle.std.specs.Prelude.{◌≡◌, [], ◌+◌, ◌*◌, ◌/◌, ◌≤◌, length};
ghost use Rattle.refusal.specs.Outcome.{each};
ghost use Rattle.polygon.specs.Memory.{point_at};
ghost use Rattle.outline.specs.Project.{handed, basis_of, shadow_of, shadow_by, projected_of, facet_of, outline, outlined};

use interval::{Interval, Sign};
use refusal::Refusal;
use space::{Frame, Plane, Point3};
use turns::Projected;

#[derive(Clone, Copy)]
pub struct Outline {
    pub at: [Projected; 128],
    pub n: usize,
}

// 34 where the handedness of the plane's frame is not certified.
#[tactic(auto, unfolding(crate::specs::Project::basis_of))]
pub fn plane_basis(plane: Plane) -> Result<(), Refusal>
    ensures { result ≡ basis_of plane }
{
    let frame = plane.frame;
    let cross = interval::cross(space::coordinates(frame.x), space::coordinates(frame.y));
    handed(interval::sign_of(interval::dot_from_zero(cross, space::coordinates(frame.z))))
}

#[tactic(auto, unfolding(crate::specs::Project::handed))]
fn handed(s: Sign) -> Result<(), Refusal>
    ensures { result ≡ handed s }
{
    match s {
        Sign::Positive => Ok(()),
        Sign::Negative => Err(refusal::refuse(34)),
        Sign::Zero => Err(refusal::refuse(34)),
        Sign::Unknown => Err(refusal::refuse(34)),
    }
}

// delta less its part along the normal, whose reciprocal square is r.
#[tactic(auto, unfolding(crate::specs::Project::shadow_of, crate::specs::Project::seen))]
fn flattened(f: Frame, delta: [Interval; 3], normal: [Interval; 3], r: Interval) -> Projected
    ensures { result ≡ shadow_of f delta normal r }
{
    let parameter = interval::mul(interval::dot_from_zero(delta, normal), r);
    let flat = interval::residual(delta, normal, parameter);
    Projected {
        x: interval::dot_from_zero(flat, space::coordinates(f.x)),
        y: interval::dot_from_zero(flat, space::coordinates(f.y)),
    }
}

#[tactic(auto, unfolding(crate::specs::Project::shadow_by))]
fn shadow_by(
    f: Frame,
    delta: [Interval; 3],
    normal: [Interval; 3],
    r: Option<Interval>,
) -> Result<Projected, Refusal>
    ensures { result ≡ shadow_by f delta normal r }
{
    match r {
        Some(v) => Ok(flattened(f, delta, normal, v)),
        None => Err(refusal::refuse(34)),
    }
}

#[tactic(auto, unfolding(crate::specs::Project::projected_of))]
pub fn projected(plane: Plane, q: Point3) -> Result<Projected, Refusal>
    ensures { result ≡ projected_of plane q }
{
    let f = plane.frame;
    let delta = interval::difference(space::coordinates(q), space::coordinates(f.origin));
    let normal = space::coordinates(f.z);
    shadow_by(
        f,
        delta,
        normal,
        interval::reciprocal(interval::dot_from_zero(normal, normal)),
    )
}

pub fn empty() -> Outline
    ensures { result ≡ outline [] }
{
    let zero = Interval { lo: 0.0, hi: 0.0 };
    Outline {
        at: [Projected { x: zero, y: zero }; 128],
        n: 0,
    }
}

// The corner at place i of a facet that has three floats a corner.
pub fn corner(s: &[f64], i: usize) -> Point3
    requires { 3 * i + 3 ≤ length s.now }
    ensures { result ≡ point_at s.now (3 * i) }
{
    let k = 3 * i;
    Point3 {
        x: s[k],
        y: s[k + 1],
        z: s[k + 2],
    }
}

// The corners of a facet in its plane, or the first refusal among them.
pub fn outline_of(plane: Plane, s: &[f64]) -> Result<Outline, Refusal>
    requires { length s.now / 3 ≤ 128 }
    ensures { result ≡ outlined (each (projected_of plane) [] (facet_of s.now)) }
{
    let n = s.len() / 3;
    let mut out = empty();
    for i in 0..n {
        out.at[i] = projected(plane, corner(s, i))?;
    }
    out.n = n;
    Ok(out)
}
