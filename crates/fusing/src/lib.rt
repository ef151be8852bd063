#![tactic(auto)]

// Fusing after `conform`: the facets of an arrangement of cells become bodies, shell by shell.
ghost use Rattle.std.specs.Prelude.{◌≡◌, ℕ, ◌+◌, ◌*◌, ◌<◌, ◌≤◌, length};
ghost use Rattle.keys.specs.Rows.{Starts};
ghost use Rattle.edges.specs.Whole.{Room};
ghost use Rattle.shells.specs.Faces.{Owned};
ghost use Rattle.volume.specs.Shell.{Points};
ghost use Rattle.bodies.specs.Fusing.{order_shells, exterior, faces_of, body_of};
ghost use Rattle.interfaces.specs.Facets.{facets_of};
ghost use Rattle.shells.specs.Named.{Spread};
ghost use Rattle.cavities.specs.Steps.{volume_of};
ghost use Rattle.fusing.specs.Bodied.{Bodied, Faced, named_shells};
ghost use Rattle.fusing.specs.Body.{Bordering};
ghost use Rattle.fusing.specs.Bench.{Cycles, Bench};

use refusal::Refusal;

// How many facets and shells are written behind a body.
#[derive(Clone, Copy)]
pub struct Made {
    pub facets: usize,
    pub shells: usize,
}

// How many facets a body has, and pairs of neighbours.
#[derive(Clone, Copy)]
pub struct Bordered {
    pub faces: usize,
    pub pairs: usize,
}

// The facets of the body of some cells, and its edges.
fn body_edges(
    v: &[u64],
    starts: &[u64],
    owners: &[u64],
    f: usize,
    ext: &[u64],
    cells: &[u64],
    faces: &mut [u64],
    d: &mut [u64],
    k: &mut [u64],
    s: &mut [u64],
    ord: &mut [u64],
    ends: &mut [u64],
) -> Result<Bordered, Refusal>
    requires starts { Starts v.now starts.now f × Owned owners.now f ext.now × (length ext.now ≤ length faces.old) }
    requires room { Room v.now starts.now ext.now d.old k.old s.old ord.old ends.old }
    ensures { Bordering v.now starts.now owners.now ext.now cells.now faces.new ends.new result }
{
    let m = shells::body_faces(owners, f, ext, cells, faces);
    let p = edges::check_edges(v, starts, f, &faces[..m], d, k, s, ord, ends)?;
    Ok(Bordered {
        faces: m,
        pairs: p.pairs,
    })
}

// The shells of a body in order: its facets go to `out` from `at` on, how many each shell has to `sizes` from `sat` on.
fn order_body(
    points: &[f64],
    v: &[u64],
    starts: &[u64],
    f: usize,
    faces: &[u64],
    ends: &[u64],
    head: &mut [u64],
    next: &mut [u64],
    seen: &mut [u64],
    work: &mut [u64],
    nodes: &mut [u64],
    cuts: &mut [u64],
    out: &mut [u64],
    at: usize,
    sizes: &mut [u64],
    sat: usize,
) -> Result<Made, Refusal>
    requires points { Points points.now v.now × Faced v.now starts.now f faces.now }
    requires spread { Spread ends.now head.old next.old seen.old work.old faces.now nodes.old cuts.old }
    requires faces_in_bounds { (at + length faces.now ≤ length out.old) × (sat + length faces.now ≤ length sizes.old) }
    ensures { Bodied (order_shells (volume_of points.now v.now starts.now) (named_shells faces.now ends.now)) (length faces.now) out.old sizes.old at sat out.new sizes.new result }
{
    let g = shells::find_shells(ends, head, next, seen, work, faces, nodes, cuts);
    let o = cavities::find_outer(points, v, starts, f, nodes, cuts, g)?;
    listing::list_facets(nodes, cuts, g, o, out, at);
    listing::list_sizes(nodes, cuts, g, o, sizes, sat);
    Ok(Made {
        facets: at + faces.len(),
        shells: sat + g,
    })
}

// The body of some cells: `ext` lists the facets of one cell alone. Its facets go to `out` from `at` on, how many each shell has to
// `sizes` from `sat` on; the outward shell comes first.
pub fn fuse_body(
    points: &[f64],
    v: &[u64],
    starts: &[u64],
    owners: &[u64],
    f: usize,
    ext: &[u64],
    cells: &[u64],
    faces: &mut [u64],
    d: &mut [u64],
    k: &mut [u64],
    s: &mut [u64],
    ord: &mut [u64],
    ends: &mut [u64],
    nodes: &mut [u64],
    cuts: &mut [u64],
    out: &mut [u64],
    at: usize,
    sizes: &mut [u64],
    sat: usize,
) -> Result<Made, Refusal>
    requires points { Points points.now v.now × Cycles v.now starts.now f × (f ≤ length owners.now) × (ext.now ≡ exterior (facets_of v.now starts.now owners.now f)) }
    requires bench { Bench v.now f faces.old d.old k.old s.old ord.old ends.old nodes.old cuts.old }
    requires cells_in_bounds { (at + length (faces_of (facets_of v.now starts.now owners.now f) cells.now) ≤ length out.old) × (sat + length (faces_of (facets_of v.now starts.now owners.now f) cells.now) ≤ length sizes.old) }
    ensures { Bodied (body_of (volume_of points.now v.now starts.now) (facets_of v.now starts.now owners.now f) cells.now) (length (faces_of (facets_of v.now starts.now owners.now f) cells.now)) out.old sizes.old at sat out.new sizes.new result }
{
    let b = body_edges(v, starts, owners, f, ext, cells, faces, d, k, s, ord, ends)?;
    let m = b.faces;
    let p = b.pairs;
    order_body(
        points,
        v,
        starts,
        f,
        &faces[..m],
        &ends[..2 * p],
        &mut d[..m],
        k,
        &mut s[..m],
        ord,
        nodes,
        cuts,
        out,
        at,
        sizes,
        sat,
    )
}
