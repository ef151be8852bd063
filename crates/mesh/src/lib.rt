#![tactic(auto)]

// The mesh of one facet: triples of corner places, each turning Positive.
ghost use Rattle.std.specs.Prelude.{◌≡◌, true, [], ◌/◌, ◌<◌, ◌≤◌, length};
ghost use Rattle.lists.specs.Walks.{all};
ghost use Rattle.space.specs.Vector.{finite_point};
ghost use Rattle.outline.specs.Project.{points_of, facet_of};
ghost use Rattle.ears.specs.Ears.{Ready};
ghost use Rattle.ears.specs.Places.{places_of};
ghost use Rattle.mesh.specs.Mesh.{triples, meshed, pushed, last_by, last_in, clipped_of, triangles_of, finite_frame, facet, fair_facet, enough_on, mesh_on, mesh_of};

use ears::{Active, Found, Triangle};
use outline::Outline;
use refusal::Refusal;
use space::{Frame, Plane, Precision};
use turns::Turn;

#[derive(Clone, Copy)]
pub struct Triples {
    pub at: [Triangle; 126],
    pub n: usize,
}

fn none() -> Triples
    ensures { result ≡ triples [] }
{
    Triples {
        at: [Triangle { a: 0, b: 0, c: 0 }; 126],
        n: 0,
    }
}

// One triple more, in place.
fn push(out: &mut Triples, w: Triangle)
    requires { out.old.n < 126 }
    ensures { out.new ≡ pushed out.old w }
{
    let n = out.n;
    out.at[n] = w;
    out.n = n + 1;
}

// The triples with one more.
fn pushed(out: Triples, w: Triangle) -> Triples
    requires { out.n < 126 }
    ensures { result ≡ pushed out w }
{
    let mut triples = out;
    push(&mut triples, w);
    triples
}

// The last triangle has to turn Positive: 33, 32.
#[tactic(auto, unfolding(crate::specs::Mesh::last_by))]
fn last_by(s: Result<Turn, Refusal>, out: Triples, w: Triangle) -> Result<Triples, Refusal>
    requires { out.n < 126 }
    ensures { result ≡ last_by s out w }
{
    match s? {
        Turn::Positive => Ok(pushed(out, w)),
        Turn::Negative => Err(refusal::refuse(32)),
        Turn::Zero => Err(refusal::refuse(32)),
    }
}

fn last(p: Precision, o: Outline, active: Active, out: Triples) -> Result<Triples, Refusal>
    requires { Ready o active × (3 ≤ active.n) × (out.n < 126) }
    ensures { result ≡ last_in p (points_of o) (places_of active) out }
{
    let w = Triangle {
        a: active.at[0],
        b: active.at[1],
        c: active.at[2],
    };
    last_by(ears::turn_at(p, &o, w), out, w)
}

// Ears and straight corners are taken off until three corners are left: 33, 31, 32.
fn clip(p: Precision, o: Outline) -> Result<Triples, Refusal>
    requires { (3 ≤ o.n) × (o.n ≤ 128) }
    ensures { result ≡ meshed (clipped_of p (points_of o)) }
{
    let mut active = ears::all_places(o.n);
    let mut out = none();
    // How many turns it takes is known only by the corners that are left.
    while 3 < active.n {
        match ears::scan(p, o, active)? {
            Found::Ear(i, t) => {
                push(&mut out, t);
                active = ears::remove(active, i);
            }
            Found::Straight(i) => {
                active = ears::remove(active, i);
            }
            Found::Nothing => return Err(refusal::refuse(31)),
        }
    }
    last(p, o, active, out)
}

#[tactic(auto, unfolding(crate::specs::Mesh::triangles_of, crate::specs::Mesh::given, crate::specs::Mesh::meshed))]
pub fn triangles(p: Precision, o: Outline) -> Result<Triples, Refusal>
    requires { (3 ≤ o.n) × (o.n ≤ 128) }
    ensures { result ≡ meshed (triangles_of p (points_of o)) }
{
    simple::simple(p, o)?;
    clip(p, o)
}

fn is_finite_frame(f: Frame) -> bool
    ensures { result ≡ finite_frame f }
{
    let origin = space::is_finite_point(f.origin);
    let x = space::is_finite_point(f.x);
    let y = space::is_finite_point(f.y);
    origin & (x & (y & space::is_finite_point(f.z)))
}

fn are_finite(s: &[f64]) -> bool
    ensures { result ≡ all finite_point true (facet_of s.now) }
{
    let n = s.len() / 3;
    let mut fair = true;
    for i in 0..n {
        fair = fair & space::is_finite_point(outline::corner(s, i));
    }
    fair
}

#[tactic(auto, unfolding(crate::specs::Mesh::fair_facet))]
fn is_fair(p: Precision, plane: Plane, s: &[f64]) -> bool
    ensures { result ≡ fair_facet p (facet plane s.now) }
{
    let numbers = is_finite_frame(plane.frame) & are_finite(s);
    space::is_fair_precision(p) & numbers
}

// A facet whose plane is handed: 3, 34, then the triangles.
fn enough_on(p: Precision, plane: Plane, s: &[f64]) -> Result<Triples, Refusal>
    requires { length s.now / 3 ≤ 128 }
    ensures { result ≡ meshed (enough_on p (facet plane s.now)) }
{
    if s.len() / 3 < 3 {
        return Err(refusal::refuse(3));
    }
    let o = outline::outline_of(plane, s)?;
    triangles(p, o)
}

#[tactic(auto, unfolding(crate::specs::Mesh::mesh_on, crate::specs::Mesh::given, crate::specs::Mesh::meshed))]
fn mesh_on(p: Precision, plane: Plane, s: &[f64]) -> Result<Triples, Refusal>
    requires { length s.now / 3 ≤ 128 }
    ensures { result ≡ meshed (mesh_on p (facet plane s.now)) }
{
    outline::plane_basis(plane)?;
    enough_on(p, plane, s)
}

// The corners of the facet lie in s, three floats each.
pub fn mesh(p: Precision, plane: Plane, s: &[f64]) -> Result<Triples, Refusal>
    ensures { result ≡ meshed (mesh_of p (facet plane s.now)) }
{
    if 128 < s.len() / 3 {
        return Err(refusal::refuse(12));
    }
    if !is_fair(p, plane, s) {
        return Err(refusal::refuse(2));
    }
    mesh_on(p, plane, s)
}
