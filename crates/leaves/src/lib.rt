#![tactic(auto)]

// The leaves for the tests that call them from outside: numbers in, numbers and codes out.
ghost use Rattle.std.specs.Prelude.{◌≡◌};
ghost use Rattle.std.specs.Float.{binary64};
ghost use Rattle.std.specs.Float.Ieee.{to_bits, of_bits};
ghost use Rattle.float.specs.Float.{next_up, next_down, abs, finite, lesser, greater, before};
ghost use Rattle.root.specs.Root.{sqrt_of};
ghost use Rattle.exact.specs.Orient.{orient_of};
ghost use Rattle.interval.specs.Ends.{add_i, sub_i, mul_i, sqr_i, sign_of, inverse_of, holds_zero};
ghost use Rattle.space.specs.Vector.{length_v};
ghost use Rattle.space.specs.Frames.{plane_of, local_of};
ghost use Rattle.space.specs.Near.{near_of};
ghost use Rattle.side.specs.Sides.{distance_of, side_of, opposite_of};
ghost use Rattle.refusal.specs.Outcome.{number_of};
ghost use Rattle.turns.specs.Turns.{orientation_of, in_range};
ghost use Rattle.lent.specs.Lent.{yes, stored, point_by, plane_by, point_stored, plane_stored, plane_in};
ghost use Rattle.leaves.specs.Codes.{sign_code, turn_code, inverted, close_code, side_code, bend_code, shadow};

use exact::Turn;
use interval::{Interval, Sign};
use refusal::Refusal;
use side::Side;
use space::{Closeness, Point3, Precision};
use turns::Projected;

fn sign_code(s: Sign) -> u64
    ensures { result ≡ sign_code s }
{
    match s {
        Sign::Positive => 1,
        Sign::Negative => 2,
        Sign::Zero => 0,
        Sign::Unknown => 3,
    }
}

fn turn_code(t: Turn) -> u64
    ensures { result ≡ turn_code t }
{
    match t {
        Turn::Positive => 1,
        Turn::Negative => 2,
        Turn::Zero => 0,
        Turn::None => 3,
    }
}

fn close_code(c: Result<Closeness, Refusal>) -> u64
    ensures { result ≡ close_code c }
{
    match c {
        Ok(closeness) => match closeness {
            Closeness::Near => 1,
            Closeness::Apart => 0,
        },
        Err(r) => r.number,
    }
}

fn side_code(s: Result<Side, Refusal>) -> u64
    ensures { result ≡ side_code s }
{
    match s {
        Ok(side) => match side {
            Side::Positive => 1,
            Side::Negative => 2,
            Side::Zero => 0,
        },
        Err(refused) => refused.number,
    }
}

// The ends of a reciprocal, or nothing.
#[tactic(auto, unfolding(crate::specs::Codes::inverted))]
fn put_inverse(out: &mut [f64], v: Option<Interval>)
    ensures { out.new ≡ inverted out.old v }
{
    match v {
        Some(i) => lent::put_ends(out, i),
        None => {}
    }
}

#[unsafe(no_mangle)]
pub extern "C" fn leaf_next_up(x: f64) -> f64
    ensures { result ≡ next_up x }
{
    float::next_up(x)
}

#[unsafe(no_mangle)]
pub extern "C" fn leaf_next_down(x: f64) -> f64
    ensures { result ≡ next_down x }
{
    float::next_down(x)
}

#[unsafe(no_mangle)]
pub extern "C" fn leaf_abs(x: f64) -> f64
    ensures { result ≡ abs x }
{
    float::abs(x)
}

#[unsafe(no_mangle)]
pub extern "C" fn leaf_is_finite(x: f64) -> u64
    ensures { result ≡ yes (finite x) }
{
    lent::code(float::is_finite(x))
}

#[unsafe(no_mangle)]
pub extern "C" fn leaf_lesser(x: f64, y: f64) -> f64
    ensures { result ≡ lesser x y }
{
    float::lesser(x, y)
}

#[unsafe(no_mangle)]
pub extern "C" fn leaf_greater(x: f64, y: f64) -> f64
    ensures { result ≡ greater x y }
{
    float::greater(x, y)
}

#[unsafe(no_mangle)]
pub extern "C" fn leaf_before(x: f64, y: f64) -> u64
    ensures { result ≡ yes (before x y) }
{
    lent::code(float::before(x, y))
}

#[unsafe(no_mangle)]
pub extern "C" fn leaf_bits_of(x: f64) -> u64
    ensures { result ≡ to_bits binary64 x }
{
    float::bits_of(x)
}

#[unsafe(no_mangle)]
pub extern "C" fn leaf_float_of(b: u64) -> f64
    ensures { result ≡ of_bits binary64 b }
{
    float::float_of(b)
}

#[unsafe(no_mangle)]
pub extern "C" fn leaf_square_root(x: f64) -> f64
    ensures { result ≡ sqrt_of x }
{
    root::square_root(x)
}

#[unsafe(no_mangle)]
pub extern "C" fn leaf_orient2d(ax: f64, ay: f64, bx: f64, by: f64, cx: f64, cy: f64) -> u64
    ensures { result ≡ turn_code (orient_of ax ay bx by cx cy) }
{
    turn_code(exact::orient2d(ax, ay, bx, by, cx, cy))
}

#[unsafe(no_mangle)]
pub extern "C" fn leaf_add(al: f64, ah: f64, bl: f64, bh: f64, out: &mut [f64])
    ensures { out.new ≡ stored out.old (add_i (record { lo = al; hi = ah }) (record { lo = bl; hi = bh })) }
{
    lent::put_ends(
        out,
        interval::add(Interval { lo: al, hi: ah }, Interval { lo: bl, hi: bh }),
    );
}

#[unsafe(no_mangle)]
pub extern "C" fn leaf_sub(al: f64, ah: f64, bl: f64, bh: f64, out: &mut [f64])
    ensures { out.new ≡ stored out.old (sub_i (record { lo = al; hi = ah }) (record { lo = bl; hi = bh })) }
{
    lent::put_ends(
        out,
        interval::sub(Interval { lo: al, hi: ah }, Interval { lo: bl, hi: bh }),
    );
}

#[unsafe(no_mangle)]
pub extern "C" fn leaf_mul(al: f64, ah: f64, bl: f64, bh: f64, out: &mut [f64])
    ensures { out.new ≡ stored out.old (mul_i (record { lo = al; hi = ah }) (record { lo = bl; hi = bh })) }
{
    lent::put_ends(
        out,
        interval::mul(Interval { lo: al, hi: ah }, Interval { lo: bl, hi: bh }),
    );
}

#[unsafe(no_mangle)]
pub extern "C" fn leaf_sqr(al: f64, ah: f64, out: &mut [f64])
    ensures { out.new ≡ stored out.old (sqr_i (record { lo = al; hi = ah })) }
{
    lent::put_ends(out, interval::sqr(Interval { lo: al, hi: ah }));
}

#[unsafe(no_mangle)]
pub extern "C" fn leaf_reciprocal(al: f64, ah: f64, out: &mut [f64])
    ensures { out.new ≡ inverted out.old (inverse_of (record { lo = al; hi = ah })) }
{
    put_inverse(out, interval::reciprocal(Interval { lo: al, hi: ah }));
}

#[unsafe(no_mangle)]
pub extern "C" fn leaf_sign(al: f64, ah: f64) -> u64
    ensures { result ≡ sign_code (sign_of (record { lo = al; hi = ah })) }
{
    sign_code(interval::sign_of(Interval { lo: al, hi: ah }))
}

#[unsafe(no_mangle)]
pub extern "C" fn leaf_holds_zero(al: f64, ah: f64) -> u64
    ensures { result ≡ yes (holds_zero (record { lo = al; hi = ah })) }
{
    lent::code(interval::holds_zero(Interval { lo: al, hi: ah }))
}

#[unsafe(no_mangle)]
pub extern "C" fn leaf_length(x: f64, y: f64, z: f64) -> f64
    ensures { result ≡ length_v (record { x = x; y = y; z = z }) }
{
    space::length(Point3 { x, y, z })
}

// 0 apart, 1 near, else the number of the refusal.
#[unsafe(no_mangle)]
pub extern "C" fn leaf_near(ax: f64, ay: f64, az: f64, bx: f64, by: f64, bz: f64, local: f64) -> u64
    ensures { result ≡ close_code (near_of (record { linear = local; local = local }) (record { x = ax; y = ay; z = az }) (record { x = bx; y = by; z = bz })) }
{
    let p = Precision {
        linear: local,
        local,
    };
    close_code(space::near(
        p,
        Point3 {
            x: ax,
            y: ay,
            z: az,
        },
        Point3 {
            x: bx,
            y: by,
            z: bz,
        },
    ))
}

fn bend_code(t: Result<turns::Turn, Refusal>) -> u64
    ensures { result ≡ bend_code t }
{
    match t {
        Ok(turn) => match turn {
            turns::Turn::Positive => 1,
            turns::Turn::Negative => 2,
            turns::Turn::Zero => 0,
        },
        Err(r) => r.number,
    }
}

// 0 and the plane, or the number of the refusal and zeros.
#[unsafe(no_mangle)]
pub extern "C" fn leaf_plane(
    origin: &[f64],
    normal: &[f64],
    hint: &[f64],
    linear: f64,
    out: &mut [f64],
) -> u64
    ensures value { result ≡ number_of (plane_of (record { linear = linear; local = linear }) (point_by origin.now) (point_by normal.now) (point_by hint.now)) }
    ensures out_after { out.new ≡ plane_stored out.old (plane_in (plane_of (record { linear = linear; local = linear }) (point_by origin.now) (point_by normal.now) (point_by hint.now))) }
{
    let p = Precision {
        linear,
        local: linear,
    };
    let o = lent::point_by(origin);
    let n = lent::point_by(normal);
    let h = lent::point_by(hint);
    let made = space::plane_of(p, o, n, h);
    lent::put_plane(out, lent::plane_in(made));
    lent::number_of(made)
}

#[unsafe(no_mangle)]
pub extern "C" fn leaf_opposite(plane: &[f64], linear: f64, out: &mut [f64]) -> u64
    ensures value { result ≡ number_of (opposite_of (record { linear = linear; local = linear }) (plane_by plane.now)) }
    ensures out_after { out.new ≡ plane_stored out.old (plane_in (opposite_of (record { linear = linear; local = linear }) (plane_by plane.now))) }
{
    let p = Precision {
        linear,
        local: linear,
    };
    let w = lent::plane_by(plane);
    let made = side::opposite(w, p);
    lent::put_plane(out, lent::plane_in(made));
    lent::number_of(made)
}

#[unsafe(no_mangle)]
pub extern "C" fn leaf_to_local(plane: &[f64], q: &[f64], out: &mut [f64])
    ensures { out.new ≡ point_stored out.old (local_of (plane_by plane.now).frame (point_by q.now)) }
{
    let w = lent::plane_by(plane);
    let p = lent::point_by(q);
    let f = w.frame;
    lent::put_point(out, space::to_local(f, p));
}

#[unsafe(no_mangle)]
pub extern "C" fn leaf_distance(plane: &[f64], q: &[f64], out: &mut [f64])
    ensures { out.new ≡ stored out.old (distance_of (plane_by plane.now) (point_by q.now)) }
{
    let w = lent::plane_by(plane);
    let p = lent::point_by(q);
    lent::put_ends(out, side::distance(w, p));
}

#[unsafe(no_mangle)]
pub extern "C" fn leaf_side(plane: &[f64], q: &[f64], local: f64) -> u64
    ensures { result ≡ side_code (side_of (record { linear = local; local = local }) (plane_by plane.now) (point_by q.now)) }
{
    let p = Precision {
        linear: local,
        local,
    };
    side_code(side::side_of(lent::plane_by(plane), lent::point_by(q), p))
}

fn projected(xl: f64, xh: f64, yl: f64, yh: f64) -> Projected
    ensures { result ≡ shadow xl xh yl yh }
{
    let x = Interval { lo: xl, hi: xh };
    let y = Interval { lo: yl, hi: yh };
    Projected { x, y }
}

// The three corners' ends: low and high x, low and high y of each.
#[unsafe(no_mangle)]
pub extern "C" fn leaf_orientation(
    axl: f64,
    axh: f64,
    ayl: f64,
    ayh: f64,
    bxl: f64,
    bxh: f64,
    byl: f64,
    byh: f64,
    cxl: f64,
    cxh: f64,
    cyl: f64,
    cyh: f64,
    local: f64,
) -> u64
    ensures { result ≡ bend_code (orientation_of (record { linear = local; local = local }) (shadow axl axh ayl ayh) (shadow bxl bxh byl byh) (shadow cxl cxh cyl cyh)) }
{
    let p = Precision {
        linear: local,
        local,
    };
    let a = projected(axl, axh, ayl, ayh);
    let b = projected(bxl, bxh, byl, byh);
    let c = projected(cxl, cxh, cyl, cyh);
    bend_code(turns::orientation(p, a, b, c))
}

#[unsafe(no_mangle)]
pub extern "C" fn leaf_contains_range(
    al: f64,
    ah: f64,
    bl: f64,
    bh: f64,
    zl: f64,
    zh: f64,
    local: f64,
) -> u64
    ensures { result ≡ yes (in_range (record { linear = local; local = local }) (record { lo = al; hi = ah }) (record { lo = bl; hi = bh }) (record { lo = zl; hi = zh })) }
{
    let p = Precision {
        linear: local,
        local,
    };
    let a = Interval { lo: al, hi: ah };
    let b = Interval { lo: bl, hi: bh };
    let z = Interval { lo: zl, hi: zh };
    lent::code(turns::contains_range(p, a, b, z))
}
