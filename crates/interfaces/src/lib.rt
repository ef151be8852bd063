#![tactic(auto)]

// Facets meet by equal sorted vertex lists: those of one cell alone are listed, those of two cells are interfaces.
// The vertices of facet i are v[starts[i]..starts[i + 1]], its cell is owners[i]; `k` holds the keys with the same starts, `ord` their order.
ghost use Rattle.std.specs.Prelude.{◌≡◌, List, [], ◌∷◌, ℕ, ◌+◌, ◌*◌, ◌<◌, ◌≤◌, length, get_or, set};
ghost use Rattle.refusal.specs.Outcome.{heard};
ghost use Rattle.keys.specs.Rows.{Starts, rows};
ghost use Rattle.keys.specs.Sized.{Ordered};
ghost use Rattle.bodies.specs.Fusing.{cell_of, keys, judge_users};
ghost use Rattle.interfaces.specs.Facets.{facets_of};
ghost use Rattle.interfaces.specs.Meeting.{Part, Met_all};
ghost use Rattle.interfaces.specs.Steps.{stop_if, Turned};

use refusal::Refusal;

// The walk over the keys: where it is in their order, and how many facets are listed and pairs of cells met so far.
#[derive(Clone, Copy)]
pub struct Met {
    pub at: usize,
    pub listed: usize,
    pub pairs: usize,
}

// A refusal where a test fails.
#[tactic(auto, unfolding(crate::specs::Steps::stop_if))]
pub fn stop_if(bad: bool, number: u64) -> Result<(), Refusal>
    ensures { result ≡ stop_if bad number }
{
    if bad {
        return Err(refusal::refuse(number));
    }
    Ok(())
}

// Two facets that share a key: 18 where they are of one cell, or not each other back to front.
#[tactic(auto, using(crate::specs::Steps::pair_rows, crate::specs::Steps::pair_judged))]
fn judge_pair(
    v: &[u64],
    starts: &[u64],
    owners: &[u64],
    f: usize,
    a: usize,
    b: usize,
) -> Result<(), Refusal>
    requires { Starts v.now starts.now f × (f ≤ length owners.now) × (a < f) × (b < f) }
    ensures { heard result tt ≡ judge_users (facets_of v.now starts.now owners.now f) (a ∷ b ∷ []) }
{
    let i = starts[a] as usize;
    let ie = starts[a + 1] as usize;
    let j = starts[b] as usize;
    let je = starts[b + 1] as usize;
    let turned = meet::same_cycle(v, i, ie, j, je);
    stop_if((owners[a] == owners[b]) | !turned, 18)
}

// Their cells become a pair.
#[tactic(auto, using(crate::specs::Steps::pair_stored))]
fn meet_two(
    v: &[u64],
    starts: &[u64],
    owners: &[u64],
    f: usize,
    a: usize,
    b: usize,
    ends: &mut [u64],
    y: usize,
) -> Result<(), Refusal>
    requires { Starts v.now starts.now f × (f ≤ length owners.now) × (a < f) × (b < f) × (2 * y + 1 < length ends.old) }
    ensures judged { heard result tt ≡ judge_users (facets_of v.now starts.now owners.now f) (a ∷ b ∷ []) }
    ensures stored { ends.new ≡ set (set ends.old (2 * y) (cell_of (facets_of v.now starts.now owners.now f) a)) (2 * y + 1) (cell_of (facets_of v.now starts.now owners.now f) b) }
{
    ends[2 * y] = owners[a];
    ends[2 * y + 1] = owners[b];
    judge_pair(v, starts, owners, f, a, b)
}

// One key: a facet of its own is listed, two that share it meet, more are 19.
fn meet_run(
    v: &[u64],
    starts: &[u64],
    owners: &[u64],
    f: usize,
    k: &[u64],
    ord: &[u64],
    ext: &mut [u64],
    ends: &mut [u64],
    m: Met,
) -> Result<Met, Refusal>
    requires starts { Starts v.now starts.now f × (f ≤ length owners.now) × Starts k.now starts.now f × Ordered k.now starts.now f ord.now × (m.at < f) }
    requires part { Part (facets_of v.now starts.now owners.now f) (rows k.now starts.now f) ext.old ends.old m.at m.listed m.pairs }
    ensures { Turned (facets_of v.now starts.now owners.now f) (rows k.now starts.now f) ext.new ends.new m.at result }
{
    let p = m.at;
    let x = m.listed;
    let y = m.pairs;
    let size = keys::run_size(k, starts, f, ord, p);
    if size == 1 {
        ext[x] = ord[p];
        return Ok(Met {
            at: p + 1,
            listed: x + 1,
            pairs: y,
        });
    }
    if size == 2 {
        let a = ord[p] as usize;
        let b = ord[p + 1] as usize;
        meet_two(v, starts, owners, f, a, b, ends, y)?;
        return Ok(Met {
            at: p + 2,
            listed: x,
            pairs: y + 1,
        });
    }
    Err(refusal::refuse(19))
}

// All keys in their order: the facets of one cell go to `ext`, the pairs of cells that meet to `ends`.
pub fn meet_facets(
    v: &[u64],
    starts: &[u64],
    owners: &[u64],
    f: usize,
    k: &[u64],
    ord: &[u64],
    ext: &mut [u64],
    ends: &mut [u64],
) -> Result<Met, Refusal>
    requires starts { Starts v.now starts.now f × (f ≤ length owners.now) × Starts k.now starts.now f × Ordered k.now starts.now f ord.now }
    requires f_value { (rows k.now starts.now f ≡ keys (facets_of v.now starts.now owners.now f)) × (f ≤ length ext.old) × (f ≤ length ends.old) }
    ensures { Met_all (facets_of v.now starts.now owners.now f) ext.new ends.new result }
{
    let mut m = Met {
        at: 0,
        listed: 0,
        pairs: 0,
    };
    // The place jumps over the facets that share a key, so this is no counting loop.
    while m.at < f {
        m = meet_run(v, starts, owners, f, k, ord, ext, ends, m)?;
    }
    Ok(m)
}
