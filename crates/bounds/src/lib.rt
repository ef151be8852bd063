#![tactic(auto)]

// The corners of a cell against the planes of another.
ghost use Rattle.std.specs.Prelude.{◌≡◌, ◌+◌, ◌*◌, ◌≤◌, length};
ghost use Rattle.polygon.specs.Memory.{points_at};
ghost use Rattle.room.specs.Rooms.{cell_at, counts_at};
ghost use Rattle.bounds.specs.Bounds.{not_above, well_below, judged, point_in, points_in, against, Lies};

use refusal::Refusal;
use side::Side;
use space::{Point3, Precision};

#[tactic(auto, unfolding(crate::specs::Bounds::not_above))]
fn not_above(s: Result<Side, Refusal>) -> Result<(), Refusal>
    ensures { result ≡ not_above s }
{
    match s? {
        Side::Positive => Err(refusal::refuse(27)),
        Side::Negative => Ok(()),
        Side::Zero => Ok(()),
    }
}

#[tactic(auto, unfolding(crate::specs::Bounds::well_below))]
fn well_below(s: Result<Side, Refusal>) -> Result<(), Refusal>
    ensures { result ≡ well_below s }
{
    match s? {
        Side::Positive => Err(refusal::refuse(29)),
        Side::Negative => Ok(()),
        Side::Zero => Err(refusal::refuse(29)),
    }
}

// By whether the corner must be inside strictly.
#[tactic(auto, unfolding(crate::specs::Bounds::judged))]
fn judge(strict: bool, s: Result<Side, Refusal>) -> Result<(), Refusal>
    ensures { result ≡ judged strict s }
{
    if strict {
        return well_below(s);
    }
    not_above(s)
}

// One corner against the planes of the cell in `src`.
#[tactic(auto, using(crate::specs::Laws::testing_inside))]
fn point_in(
    strict: bool,
    t: Precision,
    src: &[f64],
    from: usize,
    sizes: &[u64],
    j: usize,
    faces: usize,
    q: Point3,
) -> Result<(), Refusal>
    requires { Lies src.now from sizes.now j faces }
    ensures { result ≡ point_in strict t (cell_at src.now from (counts_at sizes.now j faces)) q }
{
    let mut o = from;
    for i in 0..faces {
        let n = sizes[j + i] as usize;
        let w = room::get_plane(src, o);
        judge(strict, side::side_of(w, q, t))?;
        o = o + room::PLANE + 3 * n;
    }
    Ok(())
}

// The n corners that stand in `s` from `at` on.
fn points_in(
    strict: bool,
    t: Precision,
    src: &[f64],
    from: usize,
    sizes: &[u64],
    j: usize,
    faces: usize,
    s: &[f64],
    at: usize,
    n: usize,
) -> Result<(), Refusal>
    requires { Lies src.now from sizes.now j faces × (at + 3 * n ≤ length s.now) }
    ensures { result ≡ points_in strict t (cell_at src.now from (counts_at sizes.now j faces)) (points_at s.now at n) }
{
    for i in 0..n {
        let q = polygon::get_point(s, at + 3 * i);
        point_in(strict, t, src, from, sizes, j, faces, q)?;
    }
    Ok(())
}

// Each corner of the cell of n faces in `s` against each plane of the cell in `src`.
#[tactic(auto, using(crate::specs::Laws::testing_inside))]
pub fn against(
    strict: bool,
    t: Precision,
    src: &[f64],
    from: usize,
    sizes: &[u64],
    j: usize,
    faces: usize,
    s: &[f64],
    at: usize,
    counts: &[u64],
    first: usize,
    n: usize,
) -> Result<(), Refusal>
    requires { Lies src.now from sizes.now j faces × Lies s.now at counts.now first n }
    ensures { result ≡ against strict t (cell_at src.now from (counts_at sizes.now j faces)) (cell_at s.now at (counts_at counts.now first n)) }
{
    let mut o = at;
    for i in 0..n {
        let c = counts[first + i] as usize;
        points_in(strict, t, src, from, sizes, j, faces, s, o + room::PLANE, c)?;
        o = o + room::PLANE + 3 * c;
    }
    Ok(())
}
