#![tactic(auto)]

// The bodies of groups of cells, one behind another, in three slices: all facets in order, how many facets each shell has, how many
// shells each body has.
ghost use Rattle.std.specs.Prelude.{◌≡◌, [], ℕ, ◌+◌, ◌<◌, ◌≤◌, length, get_or};
ghost use Rattle.refusal.specs.Outcome.{each};
ghost use Rattle.sums.specs.Sum.{sum};
ghost use Rattle.keys.specs.Rows.{Starts, row, rows};
ghost use Rattle.bodies.specs.Fusing.{exterior, faces_of, body_of};
ghost use Rattle.interfaces.specs.Facets.{facets_of};
ghost use Rattle.volume.specs.Shell.{Points};
ghost use Rattle.cavities.specs.Steps.{volume_of};
ghost use Rattle.fusing.specs.Bench.{Cycles, Bench};
ghost use Rattle.assembly.specs.Answer.{Laid};
ghost use Rattle.assembly.specs.Walk.{Stepped};

use fusing::Made;
use refusal::Refusal;

// How many bodies, shells and facets are written.
#[derive(Clone, Copy)]
pub struct Fused {
    pub bodies: usize,
    pub shells: usize,
    pub facets: usize,
}

// The body of the cells cells[cuts[i]..cuts[i + 1]] goes behind those of the i groups before.
fn next_body(
    points: &[f64],
    v: &[u64],
    starts: &[u64],
    owners: &[u64],
    f: usize,
    ext: &[u64],
    cells: &[u64],
    cuts: &[u64],
    g: usize,
    faces: &mut [u64],
    d: &mut [u64],
    k: &mut [u64],
    s: &mut [u64],
    ord: &mut [u64],
    ends: &mut [u64],
    nodes: &mut [u64],
    marks: &mut [u64],
    out: &mut [u64],
    at: usize,
    sizes: &mut [u64],
    sat: usize,
    shells: &mut [u64],
    i: usize,
) -> Result<Made, Refusal>
    requires points { Points points.now v.now × Cycles v.now starts.now f × (f ≤ length owners.now) × (ext.now ≡ exterior (facets_of v.now starts.now owners.now f)) }
    requires bench { Bench v.now f faces.old d.old k.old s.old ord.old ends.old nodes.old marks.old }
    requires starts { Starts cells.now cuts.now g × (i < g) × (i < length shells.old) × (at + length (faces_of (facets_of v.now starts.now owners.now f) (row cells.now cuts.now i)) ≤ length out.old) × (sat + length (faces_of (facets_of v.now starts.now owners.now f) (row cells.now cuts.now i)) ≤ length sizes.old) }
    ensures { Stepped (body_of (volume_of points.now v.now starts.now) (facets_of v.now starts.now owners.now f) (row cells.now cuts.now i)) (length (faces_of (facets_of v.now starts.now owners.now f) (row cells.now cuts.now i))) out.old sizes.old shells.old i sat at out.new sizes.new shells.new result }
{
    let a = cuts[i] as usize;
    let e = cuts[i + 1] as usize;
    let r = fusing::fuse_body(
        points,
        v,
        starts,
        owners,
        f,
        ext,
        &cells[a..e],
        faces,
        d,
        k,
        s,
        ord,
        ends,
        nodes,
        marks,
        out,
        at,
        sizes,
        sat,
    )?;
    shells[i] = (r.shells - sat) as u64;
    Ok(r)
}

// The bodies of g groups of cells, one behind another.
pub fn list_bodies(
    points: &[f64],
    v: &[u64],
    starts: &[u64],
    owners: &[u64],
    f: usize,
    ext: &[u64],
    cells: &[u64],
    cuts: &[u64],
    g: usize,
    faces: &mut [u64],
    d: &mut [u64],
    k: &mut [u64],
    s: &mut [u64],
    ord: &mut [u64],
    ends: &mut [u64],
    nodes: &mut [u64],
    marks: &mut [u64],
    out: &mut [u64],
    sizes: &mut [u64],
    shells: &mut [u64],
) -> Result<Fused, Refusal>
    requires points { Points points.now v.now × Cycles v.now starts.now f × (f ≤ length owners.now) × (ext.now ≡ exterior (facets_of v.now starts.now owners.now f)) }
    requires bench { Bench v.now f faces.old d.old k.old s.old ord.old ends.old nodes.old marks.old }
    requires starts { Starts cells.now cuts.now g × (g ≤ length shells.old) × (sum (λ c. length (faces_of (facets_of v.now starts.now owners.now f) c)) (rows cells.now cuts.now g) ≤ length out.old) × (sum (λ c. length (faces_of (facets_of v.now starts.now owners.now f) c)) (rows cells.now cuts.now g) ≤ length sizes.old) }
    ensures { Laid (each (body_of (volume_of points.now v.now starts.now) (facets_of v.now starts.now owners.now f)) [] (rows cells.now cuts.now g)) out.old sizes.old shells.old out.new sizes.new shells.new result }
{
    let mut m = Made {
        facets: 0,
        shells: 0,
    };
    for i in 0..g {
        let at = m.facets;
        let sat = m.shells;
        m = next_body(
            points, v, starts, owners, f, ext, cells, cuts, g, faces, d, k, s, ord, ends, nodes,
            marks, out, at, sizes, sat, shells, i,
        )?;
    }
    Ok(Fused {
        bodies: g,
        shells: m.shells,
        facets: m.facets,
    })
}
