#![tactic(auto)]

// The vertices of an arrangement: every corner of every face of every cell is one of its points, or a new one behind them.
// The faces lie one behind another; how many of them each cell has stands in a slice of its own.
ghost use Rattle.std.specs.Prelude.{◌≡◌, ◌+◌, ◌≤◌, length, take, replicate, ltb};
ghost use Rattle.std.proofs.lemmas.List.Edits.{sets};
ghost use Rattle.refusal.specs.Outcome.{then, unless};
ghost use Rattle.room.specs.Rooms.{cell_at, counts_at};
ghost use Rattle.indexed.specs.Stored.{Stored, Fits};
ghost use Rattle.merge.specs.Merge.{capped, merge, owners_from};
ghost use Rattle.merge.specs.Laws.{Owned};

use indexed::Pick;
use refusal::Refusal;
use space::Precision;

// 14 where there are more than 4,096 points.
fn capped(n: usize) -> Result<usize, Refusal>
    ensures { result ≡ capped n }
{
    if 4096 < n {
        return Err(refusal::refuse(14));
    }
    Ok(n)
}

// The points of n faces go to `points`, and the places of the faces' corners, face after face, to `places`. Returns how many points
// there are.
pub fn merge(
    t: Precision,
    s: &[f64],
    counts: &[u64],
    n: usize,
    points: &mut [f64],
    places: &mut [u64],
) -> Result<usize, Refusal>
    requires { Fits s.now counts.now 0 0 n points.old places.old }
    ensures { Stored (merge t (cell_at s.now 0 (counts_at counts.now 0 n))) points.old places.old points.new places.new result }
{
    let m = indexed::index_faces(Pick::Only, t, s, 0, counts, 0, n, points, places)?;
    capped(m)
}

// The next n entries are x.
fn fill(owners: &mut [u64], at: usize, n: usize, x: u64)
    requires { at + n ≤ length owners.old }
    ensures { owners.new ≡ sets owners.old at (replicate n x) }
{
    for i in 0..n {
        owners[at + i] = x;
    }
}

// The cell of each face, by the numbers of faces of n cells.
pub fn owners_of(sizes: &[u64], n: usize, owners: &mut [u64])
    requires { Owned sizes.now n owners.old }
    ensures { owners.new ≡ sets owners.old 0 (owners_from 0 (take n sizes.now)) }
{
    let mut at = 0;
    for i in 0..n {
        let c = sizes[i] as usize;
        fill(owners, at, c, i as u64);
        at += c;
    }
}
