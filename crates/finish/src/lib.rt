#![tactic(auto)]

// The solids of a list of cells, one after another. They lie in slices one behind another: the floats of the points in `points`, the
// places of the faces' corners in `places`, the number of points of each solid in `marks`; the numbers of corners and of faces are the
// list's own.
ghost use Rattle.std.specs.Prelude.{◌≡◌, ◌+◌, ◌≤◌, length};
ghost use Rattle.refusal.specs.Outcome.{then};
ghost use Rattle.room.specs.Rooms.{cell_at, counts_at};
ghost use Rattle.stack.specs.Stacks.{list_at, Holds};
ghost use Rattle.built.specs.Built.{built, Bench};
ghost use Rattle.finish.specs.Finish.{finish, total, Finished, Shelf, Space, Behind};

use refusal::Refusal;
use space::Precision;
use stack::Stack;

// How many corners n faces have, which is no more than `most`; their numbers of corners stand from `first` on.
pub fn corners_of(counts: &[u64], first: usize, n: usize, most: usize) -> usize
    requires { (first + n ≤ length counts.now) × (total (counts_at counts.now first n) ≤ most) }
    ensures { result ≡ total (counts_at counts.now first n) }
{
    let mut c = 0;
    for j in 0..n {
        c += counts[first + j] as usize;
    }
    c
}

// The solid of the cell of n faces and c corners at a place goes behind p floats and q places.
fn finish_cell(
    t: Precision,
    d: &[f64],
    o: usize,
    counts: &[u64],
    f: usize,
    n: usize,
    c: usize,
    points: &mut [f64],
    p: usize,
    places: &mut [u64],
    q: usize,
    ends: &mut [u64],
    head: &mut [u64],
    next: &mut [u64],
    seen: &mut [u64],
    work: &mut [u64],
    nodes: &mut [u64],
    cuts: &mut [u64],
) -> Result<usize, Refusal>
    requires space { Space d.now o counts.now f n c points.old p places.old q }
    requires bench { Bench c n ends.old head.old next.old seen.old work.old nodes.old cuts.old }
    ensures { Behind (built t (cell_at d.now o (counts_at counts.now f n))) p q points.old places.old points.new places.new result }
{
    let e = q + c;
    built::build(
        t,
        d,
        o,
        &counts[f..],
        n,
        &mut points[p..],
        &mut places[q..e],
        ends,
        head,
        next,
        seen,
        work,
        nodes,
        cuts,
    )
}

// The cells of the list are indexed and checked one after another; the slices behind `marks` are work memory. After a refusal all of
// these slices are free.
pub fn finish_cells(
    t: Precision,
    limit: usize,
    s: Stack,
    d: &[f64],
    counts: &[u64],
    sizes: &[u64],
    points: &mut [f64],
    places: &mut [u64],
    marks: &mut [u64],
    ends: &mut [u64],
    head: &mut [u64],
    next: &mut [u64],
    seen: &mut [u64],
    work: &mut [u64],
    nodes: &mut [u64],
    cuts: &mut [u64],
) -> Result<(), Refusal>
    requires holds { Holds limit s d.now counts.now sizes.now × Shelf limit points.old places.old marks.old }
    requires bench { Bench limit limit ends.old head.old next.old seen.old work.old nodes.old cuts.old }
    ensures { Finished limit s.cells (then (list_at s d.now counts.now sizes.now) (finish t)) result points.new places.new counts.now sizes.now marks.new }
{
    s.verdict?;
    let mut o = 0;
    let mut f = 0;
    let mut p = 0;
    let mut q = 0;
    for j in 0..s.cells {
        let n = sizes[j] as usize;
        let c = corners_of(counts, f, n, limit);
        let m = finish_cell(
            t, d, o, counts, f, n, c, points, p, places, q, ends, head, next, seen, work, nodes,
            cuts,
        )?;
        marks[j] = m as u64;
        o += room::PLANE * n + 3 * c;
        f += n;
        p += 3 * m;
        q += c;
    }
    Ok(())
}
