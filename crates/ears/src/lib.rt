#![tactic(auto)]

// The corners that are left of an outline, and the scan for an ear among them.
ghost use Rattle.std.specs.Prelude.{◌≡◌, [], ◌+◌, ◌-◌, ◌%◌, ◌<◌, ◌≤◌};
ghost use Rattle.outline.specs.Project.{points_of};
ghost use Rattle.ears.specs.Places.{places_of, active, up_from, past_of, without, window_at};
ghost use Rattle.ears.specs.Ears.{turn_at, allows, blocked_where, inside_by, inside_of, corner_of, block_in, scan_of, Ready};
ghost use Rattle.ears.specs.Laws.{Within};

use outline::Outline;
use refusal::Refusal;
use space::Precision;
use turns::{Projected, Turn};

// The places of three corners.
#[derive(Clone, Copy)]
pub struct Triangle {
    pub a: usize,
    pub b: usize,
    pub c: usize,
}

// The places of the corners that are left.
#[derive(Clone, Copy)]
pub struct Active {
    pub at: [usize; 128],
    pub n: usize,
}

// A corner in the way of an ear, or not.
#[derive(Clone, Copy)]
pub enum Block {
    Clear,
    Blocked,
}

// What a scan of the corners finds, and at which of them.
#[derive(Clone, Copy)]
pub enum Found {
    Ear(usize, Triangle),
    Straight(usize),
    Nothing,
}

pub fn none() -> Active
    ensures { result ≡ active [] }
{
    Active { at: [0; 128], n: 0 }
}

// All places of n corners.
pub fn all_places(n: usize) -> Active
    requires { n ≤ 128 }
    ensures { result ≡ active (up_from 0 n) }
{
    let mut out = none();
    for i in 0..n {
        out.at[i] = i;
    }
    out.n = n;
    out
}

// Where place j of a list without its place i was.
fn past(i: usize, j: usize) -> usize
    requires { j < 128 }
    ensures { result ≡ past_of i j }
{
    if j < i {
        return j;
    }
    j + 1
}

pub fn remove(a: Active, i: usize) -> Active
    requires { (i < a.n) × (a.n ≤ 128) }
    ensures { result ≡ active (without i (places_of a)) }
{
    let last = a.n - 1;
    let mut out = none();
    for j in 0..last {
        let k = past(i, j);
        out.at[j] = a.at[k];
    }
    out.n = last;
    out
}

// The place before i of n, round.
fn previous(n: usize, i: usize) -> usize
    requires { (i < n) × (n ≤ 128) }
    ensures { (result ≡ (i + n - 1) % n) × (result < n) }
{
    (i + n - 1) % n
}

// The corner at i between its neighbours.
pub fn window(a: Active, i: usize) -> Triangle
    requires { (i < a.n) × (a.n ≤ 128) }
    ensures { result ≡ window_at (places_of a) i }
{
    let n = a.n;
    let j = previous(n, i);
    let k = simple::after(n, i);
    Triangle {
        a: a.at[j],
        b: a.at[i],
        c: a.at[k],
    }
}

fn is_corner(w: Triangle, q: usize) -> bool
    ensures { result ≡ corner_of w q }
{
    (q == w.a) | ((q == w.b) | (q == w.c))
}

// Positive, as expected, or Zero.
fn allows(s: Result<Turn, Refusal>) -> bool
    ensures { result ≡ allows s }
{
    turns::is_positive(s) | turns::is_zero(s)
}

#[tactic(auto, unfolding(crate::specs::Ears::blocked_where))]
fn blocked_where(inside: bool) -> Result<Block, Refusal>
    ensures { result ≡ blocked_where inside }
{
    if inside {
        return Ok(Block::Blocked);
    }
    Ok(Block::Clear)
}

// The first turn that is unresolved decides, then whether all three allow it.
#[tactic(auto, unfolding(crate::specs::Ears::inside_by, crate::specs::Ears::resolved))]
fn inside_by(
    s0: Result<Turn, Refusal>,
    s1: Result<Turn, Refusal>,
    s2: Result<Turn, Refusal>,
) -> Result<Block, Refusal>
    ensures { result ≡ inside_by s0 s1 s2 }
{
    let held = allows(s0) & (allows(s1) & allows(s2));
    s0?;
    s1?;
    s2?;
    blocked_where(held)
}

// q against the triangle of a, b and c.
#[tactic(auto, unfolding(crate::specs::Ears::inside_of))]
fn inside(
    p: Precision,
    a: Projected,
    b: Projected,
    c: Projected,
    q: Projected,
) -> Result<Block, Refusal>
    ensures { result ≡ inside_of p a b c q }
{
    let s0 = turns::orientation(p, a, b, q);
    let s1 = turns::orientation(p, b, c, q);
    let s2 = turns::orientation(p, c, a, q);
    inside_by(s0, s1, s2)
}

// A corner of the triangle itself blocks nothing.
#[tactic(auto, unfolding(crate::specs::Ears::block_in))]
fn block_in(
    own: bool,
    p: Precision,
    a: Projected,
    b: Projected,
    c: Projected,
    q: Projected,
) -> Result<Block, Refusal>
    ensures { result ≡ block_in own p a b c q }
{
    if own {
        return Ok(Block::Clear);
    }
    inside(p, a, b, c, q)
}

// The turn at three places of the outline, which is lent: it is asked for again and again, and has 4 KB.
pub fn turn_at(p: Precision, o: &Outline, w: Triangle) -> Result<Turn, Refusal>
    requires { Within o.now.n w × (o.now.n ≤ 128) }
    ensures { result ≡ turn_at p (points_of o.now) w }
{
    turns::orientation(p, o.at[w.a], o.at[w.b], o.at[w.c])
}

// The first corner that is straight, or an ear that no other corner blocks: 33.
pub fn scan(p: Precision, o: Outline, active: Active) -> Result<Found, Refusal>
    requires { Ready o active }
    ensures { result ≡ scan_of p (points_of o) (places_of active) }
{
    let mut found = Found::Nothing;
    'corners: for i in 0..active.n {
        let w = window(active, i);
        match turn_at(p, &o, w)? {
            Turn::Positive => {}
            Turn::Negative => continue 'corners,
            Turn::Zero => return Ok(Found::Straight(i)),
        }
        let ia = w.a;
        let ib = w.b;
        let ic = w.c;
        let a = o.at[ia];
        let b = o.at[ib];
        let c = o.at[ic];
        // An ear leaves both loops at once, as document 01 asks, so the inner one ends in its midst and counts by hand.
        let mut j = 0;
        loop {
            if j == active.n {
                found = Found::Ear(i, w);
                break 'corners;
            }
            let q = active.at[j];
            match block_in(is_corner(w, q), p, a, b, c, o.at[q])? {
                Block::Clear => {}
                Block::Blocked => break,
            }
            j += 1;
        }
    }
    Ok(found)
}
