#![tactic(auto)]

// Fusing: the facets of an arrangement of cells become bodies. The vertices of facet i are v[starts[i]..starts[i + 1]], its cell is
// owners[i]; point i lies in `points` from 3 * i on. The answer lies in three slices: all facets in order, how many facets each shell
// has, how many shells each body has.
ghost use Rattle.std.specs.Prelude.{◌≡◌, ℕ, ◌+◌, ◌<◌, ◌≤◌, length};
ghost use Rattle.bodies.specs.Fusing.{fuse};
ghost use Rattle.interfaces.specs.Facets.{facets_of};
ghost use Rattle.cavities.specs.Steps.{volume_of};
ghost use Rattle.fusing.specs.Bench.{Bench};
ghost use Rattle.parts.specs.Cells.{Places};
ghost use Rattle.assembly.specs.Answer.{Laid};
ghost use Rattle.fuse.specs.Fusing.{Facetted, Shelves};

use assembly::Fused;
use refusal::Refusal;

// The bodies of n cells: 18 and 19 in the order of keys, then body by body 20 to 23. `out` gets the facets, `sizes` how many each shell
// has, `shells` how many each body has; the other slices are work memory.
pub fn fuse(
    points: &[f64],
    v: &[u64],
    starts: &[u64],
    owners: &[u64],
    f: usize,
    n: usize,
    ext: &mut [u64],
    cells: &mut [u64],
    cuts: &mut [u64],
    faces: &mut [u64],
    d: &mut [u64],
    k: &mut [u64],
    s: &mut [u64],
    ord: &mut [u64],
    ends: &mut [u64],
    nodes: &mut [u64],
    marks: &mut [u64],
    out: &mut [u64],
    sizes: &mut [u64],
    shells: &mut [u64],
) -> Result<Fused, Refusal>
    requires facetted { Facetted points.now v.now starts.now owners.now f n }
    requires bench { Bench v.now f faces.old d.old k.old s.old ord.old ends.old nodes.old marks.old }
    requires places { Places v.now f n k.old ord.old ext.old ends.old d.old s.old cells.old cuts.old × Shelves f n out.old sizes.old shells.old }
    ensures { Laid (fuse (volume_of points.now v.now starts.now) (facets_of v.now starts.now owners.now f) n) out.old sizes.old shells.old out.new sizes.new shells.new result }
{
    let p = parts::part_cells(
        v, starts, owners, f, n, k, ord, ext, ends, d, s, cells, cuts,
    )?;
    assembly::list_bodies(
        points,
        v,
        starts,
        owners,
        f,
        &ext[..p.listed],
        cells,
        cuts,
        p.groups,
        faces,
        d,
        k,
        s,
        ord,
        ends,
        nodes,
        marks,
        out,
        sizes,
        shells,
    )
}
