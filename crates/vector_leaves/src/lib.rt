#![tactic(auto)]

// The leaves over arrays of three intervals and over a face's corners, for the tests that call them from outside.
ghost use Rattle.std.specs.Prelude.{◌≡◌};
ghost use Rattle.interval.specs.Ends.{contains};
ghost use Rattle.interval.specs.Box.{dot_i, dot0, difference_i, residual_i, cross_i};
ghost use Rattle.space.specs.Frames.{face_plane};
ghost use Rattle.refusal.specs.Outcome.{number_of};
ghost use Rattle.lent.specs.Lent.{yes, stored, point_by, plane_stored, plane_in};
ghost use Rattle.vector_leaves.specs.Boxes.{box_by, box_stored};

use interval::Interval;
use space::{Point3, Precision};

// The three intervals that a slice begins with; zeros where it is too short.
fn box_by(s: &[f64]) -> [Interval; 3]
    ensures { result ≡ box_by s.now }
{
    if s.len() < 6 {
        let o = interval::point(0.0);
        return [o, o, o];
    }
    [
        Interval { lo: s[0], hi: s[1] },
        Interval { lo: s[2], hi: s[3] },
        Interval { lo: s[4], hi: s[5] },
    ]
}

// The six ends, three floats at a time.
fn put_box(out: &mut [f64], b: [Interval; 3])
    ensures { out.new ≡ box_stored out.old b }
{
    if 6 <= out.len() {
        let x = b[0];
        let y = b[1];
        let z = b[2];
        let front = Point3 {
            x: x.lo,
            y: x.hi,
            z: y.lo,
        };
        let back = Point3 {
            x: y.hi,
            y: z.lo,
            z: z.hi,
        };
        polygon::put_point(out, 0, front);
        polygon::put_point(out, 3, back);
    }
}

#[unsafe(no_mangle)]
pub extern "C" fn leaf_contains(al: f64, ah: f64, x: f64) -> u64
    ensures { result ≡ yes (contains (record { lo = al; hi = ah }) x) }
{
    lent::code(interval::contains(Interval { lo: al, hi: ah }, x))
}

// Arrays of three intervals: low and high x, low and high y, low and high z.
#[unsafe(no_mangle)]
pub extern "C" fn leaf_dot(a: &[f64], b: &[f64], out: &mut [f64])
    ensures { out.new ≡ stored out.old (dot_i (box_by a.now) (box_by b.now)) }
{
    let v = box_by(a);
    let w = box_by(b);
    lent::put_ends(out, interval::dot(v, w));
}

#[unsafe(no_mangle)]
pub extern "C" fn leaf_dot_from_zero(a: &[f64], b: &[f64], out: &mut [f64])
    ensures { out.new ≡ stored out.old (dot0 (box_by a.now) (box_by b.now)) }
{
    let v = box_by(a);
    let w = box_by(b);
    lent::put_ends(out, interval::dot_from_zero(v, w));
}

#[unsafe(no_mangle)]
pub extern "C" fn leaf_difference(a: &[f64], b: &[f64], out: &mut [f64])
    ensures { out.new ≡ box_stored out.old (difference_i (box_by a.now) (box_by b.now)) }
{
    let v = box_by(a);
    let w = box_by(b);
    put_box(out, interval::difference(v, w));
}

#[unsafe(no_mangle)]
pub extern "C" fn leaf_cross(a: &[f64], b: &[f64], out: &mut [f64])
    ensures { out.new ≡ box_stored out.old (cross_i (box_by a.now) (box_by b.now)) }
{
    let v = box_by(a);
    let w = box_by(b);
    put_box(out, interval::cross(v, w));
}

#[unsafe(no_mangle)]
pub extern "C" fn leaf_residual(delta: &[f64], direction: &[f64], pl: f64, ph: f64, out: &mut [f64])
    ensures { out.new ≡ box_stored out.old (residual_i (box_by delta.now) (box_by direction.now) (record { lo = pl; hi = ph })) }
{
    let v = box_by(delta);
    let w = box_by(direction);
    put_box(out, interval::residual(v, w, Interval { lo: pl, hi: ph }));
}

// The plane of a face whose first three corners are a, b and c.
#[unsafe(no_mangle)]
pub extern "C" fn leaf_face_plane(
    a: &[f64],
    b: &[f64],
    c: &[f64],
    linear: f64,
    out: &mut [f64],
) -> u64
    ensures value { result ≡ number_of (face_plane (record { linear = linear; local = linear }) (point_by a.now) (point_by b.now) (point_by c.now)) }
    ensures out_after { out.new ≡ plane_stored out.old (plane_in (face_plane (record { linear = linear; local = linear }) (point_by a.now) (point_by b.now) (point_by c.now))) }
{
    let p = Precision {
        linear,
        local: linear,
    };
    let x = lent::point_by(a);
    let y = lent::point_by(b);
    let z = lent::point_by(c);
    let made = space::face_plane(p, x, y, z);
    lent::put_plane(out, lent::plane_in(made));
    lent::number_of(made)
}
