// Replays a fixed list of the oracle's answers, which standard input holds, and says how many differ.
// A record is 20 words of 8 bytes, the lowest byte first: the kind of question, 17 numbers, and 2 words of the answer.
#![tactic(auto)]

ghost use Rattle.std.specs.Prelude.{◌≤◌};
ghost use Rattle.std.specs.Io.{ReadsAtMost};

use interval::{Interval, Sign};
use refusal::Refusal;
use space::{Closeness, Frame, Plane, Point3, Precision};
use std::io;
use std::io::Read;
use turns::Projected;

#[derive(Clone, Copy)]
struct Answer {
    first: u64,
    second: u64,
}

fn number(n: u64) -> Answer {
    Answer {
        first: n,
        second: 0,
    }
}

fn bits(x: f64) -> Answer {
    number(float::bits_of(x))
}

fn truth(b: bool) -> Answer {
    if b {
        return number(1);
    }
    number(0)
}

fn ends(i: Interval) -> Answer {
    Answer {
        first: float::bits_of(i.lo),
        second: float::bits_of(i.hi),
    }
}

// 1 and 0, which no interval is, for nothing.
fn inverse(v: Option<Interval>) -> Answer {
    match v {
        Some(i) => ends(i),
        None => number(1),
    }
}

fn sign(s: Sign) -> Answer {
    match s {
        Sign::Positive => number(1),
        Sign::Negative => number(2),
        Sign::Zero => number(0),
        Sign::Unknown => number(3),
    }
}

fn exact_turn(t: exact::Turn) -> Answer {
    match t {
        exact::Turn::Positive => number(1),
        exact::Turn::Negative => number(2),
        exact::Turn::Zero => number(0),
        exact::Turn::None => number(3),
    }
}

fn closeness(c: Closeness) -> u64 {
    match c {
        Closeness::Near => 1,
        Closeness::Apart => 0,
    }
}

fn side_number(s: side::Side) -> u64 {
    match s {
        side::Side::Positive => 1,
        side::Side::Negative => 2,
        side::Side::Zero => 0,
    }
}

fn turn_number(t: turns::Turn) -> u64 {
    match t {
        turns::Turn::Positive => 1,
        turns::Turn::Negative => 2,
        turns::Turn::Zero => 0,
    }
}

// The answer's number, or that of the refusal.
fn told(n: Result<u64, Refusal>) -> Answer {
    match n {
        Ok(n) => number(n),
        Err(r) => number(r.number),
    }
}

fn floats(kind: u64, v: [f64; 17]) -> Answer {
    match kind {
        1 => bits(float::next_up(v[0])),
        2 => bits(float::next_down(v[0])),
        3 => bits(float::abs(v[0])),
        4 => truth(float::is_finite(v[0])),
        5 => bits(float::lesser(v[0], v[1])),
        6 => bits(float::greater(v[0], v[1])),
        7 => truth(float::before(v[0], v[1])),
        8 => bits(root::square_root(v[0])),
        _ => exact_turn(exact::orient2d(v[0], v[1], v[2], v[3], v[4], v[5])),
    }
}

fn intervals(kind: u64, v: [f64; 17]) -> Answer {
    let a = Interval { lo: v[0], hi: v[1] };
    let b = Interval { lo: v[2], hi: v[3] };
    match kind {
        10 => ends(interval::add(a, b)),
        11 => ends(interval::sub(a, b)),
        12 => ends(interval::mul(a, b)),
        13 => ends(interval::sqr(a)),
        14 => inverse(interval::reciprocal(a)),
        _ => sign(interval::sign_of(a)),
    }
}

fn point(x: f64, y: f64, z: f64) -> Point3 {
    Point3 { x, y, z }
}

fn plane(v: [f64; 17]) -> Plane {
    let frame = Frame {
        origin: point(v[0], v[1], v[2]),
        x: point(v[3], v[4], v[5]),
        y: point(v[6], v[7], v[8]),
        z: point(v[9], v[10], v[11]),
    };
    Plane { frame, mark: 0.0 }
}

fn shadow(xl: f64, xh: f64, yl: f64, yh: f64) -> Projected {
    let x = Interval { lo: xl, hi: xh };
    let y = Interval { lo: yl, hi: yh };
    Projected { x, y }
}

// Both tolerances are the number past the last that the question needs.
fn precision(local: f64) -> Precision {
    Precision {
        linear: local,
        local,
    }
}

fn near_answer(v: [f64; 17]) -> Answer {
    let a = point(v[0], v[1], v[2]);
    let b = point(v[3], v[4], v[5]);
    told(space::near(precision(v[6]), a, b).map(closeness))
}

fn orientation(v: [f64; 17]) -> Answer {
    let a = shadow(v[0], v[1], v[2], v[3]);
    let b = shadow(v[4], v[5], v[6], v[7]);
    let c = shadow(v[8], v[9], v[10], v[11]);
    told(turns::orientation(precision(v[12]), a, b, c).map(turn_number))
}

fn contains_range(v: [f64; 17]) -> Answer {
    let a = Interval { lo: v[0], hi: v[1] };
    let b = Interval { lo: v[2], hi: v[3] };
    let z = Interval { lo: v[4], hi: v[5] };
    truth(turns::contains_range(precision(v[6]), a, b, z))
}

fn places(kind: u64, v: [f64; 17]) -> Answer {
    match kind {
        16 => near_answer(v),
        17 => ends(side::distance(plane(v), point(v[12], v[13], v[14]))),
        18 => told(side::side_of(plane(v), point(v[12], v[13], v[14]), precision(v[15])).map(
            side_number,
        )),
        19 => orientation(v),
        _ => contains_range(v),
    }
}

fn answered(kind: u64, v: [f64; 17]) -> Answer {
    if kind < 10 {
        return floats(kind, v);
    }
    if kind < 16 {
        return intervals(kind, v);
    }
    places(kind, v)
}

fn given(list: &[u8], at: usize) -> [f64; 17]
    requires { at ≤ 65536 }
{
    let mut v = [0.0; 17];
    for i in 0..17 {
        v[i] = words::float_at(list, at + 8 + 8 * i);
    }
    v
}

// 1 where the answer of the record differs, else 0.
fn wrong(list: &[u8], at: usize) -> u64
    requires { at ≤ 65536 }
{
    let r = answered(words::word_at(list, at), given(list, at));
    let first = words::word_at(list, at + 144) == r.first;
    let second = words::word_at(list, at + 152) == r.second;
    if first & second {
        return 0;
    }
    1
}

fn wrong_in(list: &[u8], n: usize) -> u64 {
    let mut sum = 0u64;
    for i in 0..409usize {
        let at = 160 * i;
        if at + 160 <= n {
            sum = sum.wrapping_add(wrong(list, at));
        }
    }
    sum
}

// Reads until the list is full or the input ends; returns how many bytes stand at the front of the list.
fn read_full(from: &mut impl Read, list: &mut [u8]) -> io::Result<usize>
    ensures { ReadsAtMost result list.new }
{
    let mut done = 0;
    // A read may give fewer bytes than there is room for, so this is no counting loop.
    while done < list.len() {
        let n = from.read(&mut list[done..])?;
        if n == 0 {
            break;
        }
        done += n;
    }
    Ok(done)
}

fn main(rt: HostRuntime) -> io::Result<()> {
    let mut list = [0u8; 65536];
    let n = read_full(&mut rt.stdin(), &mut list)?;
    let asked = n / 160;
    let differ = wrong_in(&list, n);
    println!(rt; "replay: {asked} asked, {differ} differ")
}
