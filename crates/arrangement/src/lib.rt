#![tactic(auto)]

// The arrangement of a list of cells as fusing takes it: its points, its facets' cycles one behind another, where each begins, and
// the cell of each. Everything else that is lent is work memory, and all of it after a refusal.
ghost use Rattle.std.specs.Prelude.{◌≡◌, ◌+◌, ◌*◌, ◌≤◌, ◌<◌, length, take};
ghost use Rattle.std.proofs.lemmas.List.Edits.{sets};
ghost use Rattle.refusal.specs.Outcome.{then};
ghost use Rattle.room.specs.Rooms.{cell_at, counts_at};
ghost use Rattle.stack.specs.Stacks.{cells_at, list_at, Holds};
ghost use Rattle.arrange.specs.Arrange.{arrange};
ghost use Rattle.solids.specs.Frames.{Placing};
ghost use Rattle.arrangement.specs.Arrangements.{arrange_cells, starts_from, Shaped, Laid, Facing, Stands, Work, Lent};

use refusal::Refusal;
use space::Precision;
use stack::Stack;

// How many points, facets and vertices of facets there are.
#[derive(Clone, Copy)]
pub struct Layout {
    pub points: usize,
    pub facets: usize,
    pub vertices: usize,
}

// The vertices of the faces in `d` are merged, then the faces conform: their cycles go to `cycles`, how long each is to `lengths`.
fn arrange_faces(
    t: Precision,
    limit: usize,
    d: &[f64],
    counts: &[u64],
    faces: usize,
    points: &mut [f64],
    corners: &mut [u64],
    cycles: &mut [u64],
    lengths: &mut [u64],
) -> Result<Layout, Refusal>
    requires { Facing limit faces d.now counts.now × Work limit faces points.old corners.old lengths.old }
    ensures { Shaped (arrange t limit (cell_at d.now 0 (counts_at counts.now 0 faces))) points.old cycles.old lengths.old points.new cycles.new lengths.new result }
{
    let mut lows = [0.0; 4096];
    let mut highs = [0.0; 4096];
    let mut places = [0u64; 4096];
    let n = merge::merge(t, d, counts, faces, points, corners)?;
    let m = arrange::conform_all(
        t,
        limit,
        points,
        n,
        corners,
        counts,
        faces,
        &mut lows,
        &mut highs,
        &mut places,
        cycles,
        lengths,
    )?;
    Ok(Layout {
        points: n,
        facets: faces,
        vertices: m,
    })
}

// Where each of n cycles begins, by their lengths, and where the last one ends.
pub fn starts_of(lengths: &[u64], n: usize, starts: &mut [u64])
    requires { Placing (take n lengths.now) 0 4611686018427387904 × (n ≤ length lengths.now) × (n < length starts.old) }
    ensures { starts.new ≡ sets starts.old 0 (starts_from 0 (take n lengths.now)) }
{
    let mut at = 0;
    for i in 0..n {
        let c = lengths[i] as usize;
        starts[i] = at as u64;
        at += c;
    }
    starts[n] = at as u64;
}

// The list's k cells have `faces` faces in all.
fn arrange_list(
    t: Precision,
    limit: usize,
    k: usize,
    faces: usize,
    d: &[f64],
    counts: &[u64],
    sizes: &[u64],
    points: &mut [f64],
    corners: &mut [u64],
    cycles: &mut [u64],
    lengths: &mut [u64],
    starts: &mut [u64],
    owners: &mut [u64],
) -> Result<Layout, Refusal>
    requires { Stands limit k faces d.now counts.now sizes.now × Lent limit points.old corners.old cycles.old lengths.old starts.old owners.old }
    ensures { Laid (arrange_cells t limit (cells_at d.now 0 counts.now (take k sizes.now))) points.old cycles.old starts.old owners.old points.new cycles.new starts.new owners.new result }
{
    let r = arrange_faces(t, limit, d, counts, faces, points, corners, cycles, lengths)?;
    let f = r.facets;
    merge::owners_of(sizes, k, owners);
    starts_of(lengths, f, starts);
    Ok(r)
}

// A list of cells becomes an arrangement; a refusal of the list stays.
pub fn arrangement(
    t: Precision,
    limit: usize,
    s: Stack,
    d: &[f64],
    counts: &[u64],
    sizes: &[u64],
    points: &mut [f64],
    corners: &mut [u64],
    cycles: &mut [u64],
    lengths: &mut [u64],
    starts: &mut [u64],
    owners: &mut [u64],
) -> Result<Layout, Refusal>
    requires { Holds limit s d.now counts.now sizes.now × Lent limit points.old corners.old cycles.old lengths.old starts.old owners.old }
    ensures { Laid (then (list_at s d.now counts.now sizes.now) (arrange_cells t limit)) points.old cycles.old starts.old owners.old points.new cycles.new starts.new owners.new result }
{
    let v = s.verdict;
    let k = s.cells;
    let f = s.faces;
    v?;
    arrange_list(
        t, limit, k, f, d, counts, sizes, points, corners, cycles, lengths, starts, owners,
    )
}
