#![tactic(auto)]

// The bodies of a list of cells: its arrangement, laid out in slices, and the bodies of that.
ghost use Rattle.std.specs.Prelude.{◌≡◌, Ok};
ghost use Rattle.refusal.specs.Outcome.{then};
ghost use Rattle.assembly.specs.Answer.{Laid};
ghost use Rattle.stack.specs.Stacks.{list_at, Holds};
ghost use Rattle.arrangement.specs.Arrangements.{Lent};
ghost use Rattle.fuse_list.specs.Lists.{fuse_at, Ready, Tools, Told};

use arrangement::Layout;
use assembly::Fused;
use refusal::Refusal;
use space::Precision;
use stack::Stack;

// An arrangement's numbers, and those of its bodies.
#[derive(Clone, Copy)]
pub struct Listing {
    pub layout: Layout,
    pub fused: Fused,
}

// The bodies of n cells, whose arrangement stands at the front of four slices; a refusal of it stays.
pub fn fuse_laid(
    y: Result<Layout, Refusal>,
    limit: usize,
    n: usize,
    points: &[f64],
    cycles: &[u64],
    starts: &[u64],
    owners: &[u64],
    ext: &mut [u64],
    cells: &mut [u64],
    cuts: &mut [u64],
    faces: &mut [u64],
    d: &mut [u64],
    k: &mut [u64],
    s: &mut [u64],
    ord: &mut [u64],
    ends: &mut [u64],
    nodes: &mut [u64],
    marks: &mut [u64],
    out: &mut [u64],
    sizes: &mut [u64],
    shells: &mut [u64],
) -> Result<Fused, Refusal>
    requires { ((x : Layout) → y ≡ Ok x → Ready limit x n points.now cycles.now starts.now owners.now) × Tools limit ext.old cells.old cuts.old faces.old d.old k.old s.old ord.old ends.old nodes.old marks.old out.old sizes.old shells.old }
    ensures { Laid (then y (λ x. fuse_at x n points.now cycles.now starts.now owners.now)) out.old sizes.old shells.old out.new sizes.new shells.new result }
{
    let made = y?;
    let m = made.points;
    let f = made.facets;
    let v = made.vertices;
    fuse::fuse(
        &points[..3 * m],
        &cycles[..v],
        &starts[..f + 1],
        &owners[..f],
        f,
        n,
        ext,
        cells,
        cuts,
        faces,
        d,
        k,
        s,
        ord,
        ends,
        nodes,
        marks,
        out,
        sizes,
        shells,
    )
}

// A list of cells becomes bodies; a refusal of the list stays. `points`, `cycles`, `starts` and `owners` get the arrangement, `out`,
// `many` and `shells` the bodies; everything else that is lent is work memory, some of it in turn.
pub fn fuse_list(
    t: Precision,
    limit: usize,
    list: Stack,
    d: &[f64],
    counts: &[u64],
    sizes: &mut [u64],
    points: &mut [f64],
    corners: &mut [u64],
    cycles: &mut [u64],
    lengths: &mut [u64],
    starts: &mut [u64],
    owners: &mut [u64],
    cells: &mut [u64],
    cuts: &mut [u64],
    runs: &mut [u64],
    k: &mut [u64],
    s: &mut [u64],
    ord: &mut [u64],
    ends: &mut [u64],
    marks: &mut [u64],
    out: &mut [u64],
    many: &mut [u64],
    shells: &mut [u64],
) -> Result<Listing, Refusal>
    requires { Holds limit list d.now counts.now sizes.old × Lent limit points.old corners.old cycles.old lengths.old starts.old owners.old × Tools limit corners.old cells.old cuts.old lengths.old runs.old k.old s.old ord.old ends.old sizes.old marks.old out.old many.old shells.old }
    ensures { Told t limit (list_at list d.now counts.now sizes.old) points.old cycles.old starts.old owners.old out.old many.old shells.old points.new cycles.new starts.new owners.new out.new many.new shells.new result }
{
    let n = list.cells;
    let arranged = arrangement::arrangement(
        t, limit, list, d, counts, sizes, points, corners, cycles, lengths, starts, owners,
    );
    let layout = arranged?;
    let fused = fuse_laid(
        Ok(layout),
        limit,
        n,
        points,
        cycles,
        starts,
        owners,
        corners,
        cells,
        cuts,
        lengths,
        runs,
        k,
        s,
        ord,
        ends,
        sizes,
        marks,
        out,
        many,
        shells,
    )?;
    Ok(Listing { layout, fused })
}
