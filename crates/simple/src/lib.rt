#![tactic(auto)]

// Whether the edges of an outline keep apart.
ghost use Rattle.std.specs.Prelude.{◌≡◌, ◌+◌, ◌%◌, ◌<◌, ◌≤◌};
ghost use Rattle.outline.specs.Project.{points_of};
ghost use Rattle.simple.specs.Simple.{opposite_of, touches, apart, met_by, edges_by, edges_of, next_of, pair_of, simple_from, simple_of};

use outline::Outline;
use refusal::Refusal;
use space::Precision;
use turns::{Projected, Turn};

fn opposite(a: Result<Turn, Refusal>, b: Result<Turn, Refusal>) -> bool
    ensures { result ≡ opposite_of a b }
{
    (turns::is_positive(a) & turns::is_negative(b))
        | (turns::is_negative(a) & turns::is_positive(b))
}

// z lies on the line from x to y, between the two.
#[tactic(auto, unfolding(crate::specs::Simple::touches))]
fn touches(s: Result<Turn, Refusal>, p: Precision, x: Projected, y: Projected, z: Projected) -> bool
    ensures { result ≡ touches s p x y z }
{
    let across = turns::contains_range(p, x.x, y.x, z.x);
    turns::is_zero(s) & (across & turns::contains_range(p, x.y, y.y, z.y))
}

#[tactic(auto, unfolding(crate::specs::Simple::apart))]
fn apart(met: bool) -> Result<(), Refusal>
    ensures { result ≡ apart met }
{
    if met {
        return Err(refusal::refuse(30));
    }
    Ok(())
}

// The two edges cross, or an end of one lies on the other.
#[tactic(auto, unfolding(crate::specs::Simple::met_by))]
fn meet(
    p: Precision,
    a: Projected,
    b: Projected,
    c: Projected,
    d: Projected,
    s0: Result<Turn, Refusal>,
    s1: Result<Turn, Refusal>,
    s2: Result<Turn, Refusal>,
    s3: Result<Turn, Refusal>,
) -> bool
    ensures { result ≡ met_by p a b c d s0 s1 s2 s3 }
{
    let crossed = opposite(s0, s1) & opposite(s2, s3);
    let first = touches(s0, p, a, b, c) | touches(s1, p, a, b, d);
    let second = touches(s2, p, c, d, a) | touches(s3, p, c, d, b);
    crossed | (first | second)
}

// The first turn that is unresolved decides, then whether the edges meet.
#[tactic(auto, unfolding(crate::specs::Simple::edges_by, crate::specs::Simple::first_of, crate::specs::Simple::settled))]
fn edges_by(
    s0: Result<Turn, Refusal>,
    s1: Result<Turn, Refusal>,
    s2: Result<Turn, Refusal>,
    s3: Result<Turn, Refusal>,
    met: bool,
) -> Result<(), Refusal>
    ensures { result ≡ edges_by s0 s1 s2 s3 met }
{
    s0?;
    s1?;
    s2?;
    s3?;
    apart(met)
}

// The edges from a to b and from c to d.
#[tactic(auto, unfolding(crate::specs::Simple::edges_of, crate::specs::Simple::edges_with))]
fn edges_apart(
    p: Precision,
    a: Projected,
    b: Projected,
    c: Projected,
    d: Projected,
) -> Result<(), Refusal>
    ensures { result ≡ edges_of p a b c d }
{
    let s0 = turns::orientation(p, a, b, c);
    let s1 = turns::orientation(p, a, b, d);
    let s2 = turns::orientation(p, c, d, a);
    let s3 = turns::orientation(p, c, d, b);
    edges_by(s0, s1, s2, s3, meet(p, a, b, c, d, s0, s1, s2, s3))
}

// The place after i of n, round.
pub fn after(n: usize, i: usize) -> usize
    requires { (i < n) × (n ≤ 128) }
    ensures { (result ≡ (i + 1) % n) × (result < n) }
{
    (i + 1) % n
}

// j follows i, or i is the first edge and j the last.
fn is_next(n: usize, i: usize, j: usize) -> bool
    requires { (0 < n) × (i + 1 < 128) }
    ensures { result ≡ next_of n i j }
{
    (j == i + 1) | ((i == 0) & (j == n - 1))
}

#[tactic(auto, unfolding(crate::specs::Simple::pair_of))]
fn pair(
    next: bool,
    p: Precision,
    a: Projected,
    b: Projected,
    c: Projected,
    d: Projected,
) -> Result<(), Refusal>
    ensures { result ≡ pair_of next p a b c d }
{
    if next {
        return Ok(());
    }
    edges_apart(p, a, b, c, d)
}

// The edge at place i against each later one.
fn simple_from(p: Precision, o: Outline, i: usize) -> Result<(), Refusal>
    requires { (i < o.n) × (o.n ≤ 128) }
    ensures { result ≡ simple_from p (points_of o) o.n i }
{
    let n = o.n;
    let k = after(n, i);
    let a = o.at[i];
    let b = o.at[k];
    for j in i + 1..n {
        let l = after(n, j);
        pair(is_next(n, i, j), p, a, b, o.at[j], o.at[l])?;
    }
    Ok(())
}

// No two edges that are not neighbours cross or touch: 33, 30.
pub fn simple(p: Precision, o: Outline) -> Result<(), Refusal>
    requires { o.n ≤ 128 }
    ensures { result ≡ simple_of p (points_of o) }
{
    let n = o.n;
    for i in 0..n {
        simple_from(p, o, i)?;
    }
    Ok(())
}
