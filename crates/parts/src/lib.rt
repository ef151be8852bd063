#![tactic(auto)]

// The cells of each body: facets meet by equal keys, and cells connect through the facets that they share.
ghost use Rattle.std.specs.Prelude.{◌≡◌, ℕ, ◌+◌, ◌<◌, ◌≤◌, length};
ghost use Rattle.keys.specs.Rows.{Starts};
ghost use Rattle.interfaces.specs.Facets.{facets_of};
ghost use Rattle.parts.specs.Cells.{Places, Celled, Parting};

use refusal::Refusal;

// How many facets are of one cell alone, and how many bodies there are.
#[derive(Clone, Copy)]
pub struct Parted {
    pub listed: usize,
    pub groups: usize,
}

// The f facets of n cells: those of one cell alone go to `ext`, the cells of each body to `cells`, group i from cuts[i] up to
// cuts[i + 1].
pub fn part_cells(
    v: &[u64],
    starts: &[u64],
    owners: &[u64],
    f: usize,
    n: usize,
    k: &mut [u64],
    ord: &mut [u64],
    ext: &mut [u64],
    ends: &mut [u64],
    d: &mut [u64],
    s: &mut [u64],
    cells: &mut [u64],
    cuts: &mut [u64],
) -> Result<Parted, Refusal>
    requires starts { Starts v.now starts.now f × (f ≤ length owners.now) × Celled owners.now f n }
    requires places { Places v.now f n k.old ord.old ext.old ends.old d.old s.old cells.old cuts.old }
    ensures { Parting (facets_of v.now starts.now owners.now f) n cells.old cuts.old ext.new cells.new cuts.new result }
{
    keys::make_keys(v, starts, f, k);
    keys::sort_keys(k, starts, f, ord);
    let m = interfaces::meet_facets(v, starts, owners, f, k, ord, ext, ends)?;
    let groups = groups::components(
        &ends[..2 * m.pairs],
        &mut d[..n],
        k,
        &mut s[..n],
        ord,
        cells,
        cuts,
    );
    Ok(Parted {
        listed: m.listed,
        groups,
    })
}
