#![tactic(auto)]

// The solid of a cell, as an answer has it: the points and faces of `indexed`, where they pass the check without the counts.
ghost use Rattle.std.specs.Prelude.{◌≡◌, length};
ghost use Rattle.room.specs.Rooms.{cell_at, counts_at};
ghost use Rattle.indexed.specs.Stored.{Stored, Fits};
ghost use Rattle.built.specs.Built.{built, Bench};

use refusal::Refusal;
use space::Precision;

// The points of the cell of n faces at a place, each once, go to `points`, and the places of its faces' corners to `places`; returns how
// many points there are. The slices behind them are work memory.
pub fn build(
    t: Precision,
    s: &[f64],
    at: usize,
    counts: &[u64],
    n: usize,
    points: &mut [f64],
    places: &mut [u64],
    ends: &mut [u64],
    head: &mut [u64],
    next: &mut [u64],
    seen: &mut [u64],
    work: &mut [u64],
    nodes: &mut [u64],
    cuts: &mut [u64],
) -> Result<usize, Refusal>
    requires fits { Fits s.now counts.now at 0 n points.old places.old }
    requires bench { Bench (length places.old) n ends.old head.old next.old seen.old work.old nodes.old cuts.old }
    ensures { Stored (built t (cell_at s.now at (counts_at counts.now 0 n))) points.old places.old points.new places.new result }
{
    let m = indexed::indexed(t, s, at, counts, 0, n, points, places)?;
    solid_check::check(
        false, t, points, m, places, counts, n, ends, head, next, seen, work, nodes, cuts,
    )?;
    Ok(m)
}
