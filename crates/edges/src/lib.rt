#![tactic(auto)]

// The edges of a body: each is run once each way, by two facets, which are neighbours. Run x lies in `d` from 3 * x on: the
// facet's place in the body, where the edge begins, where it ends. Its key is row x of `k`, two numbers, with `s` as starts.
ghost use Rattle.std.specs.Prelude.{◌≡◌, List, [], ◌∷◌, ◌++◌, map, ℕ, ◌+◌, ◌-◌, ◌*◌, ◌<◌, ◌≤◌, min, max, length, get_or, set};
ghost use Rattle.std.proofs.Math.Seq.{slice};
ghost use Rattle.refusal.specs.Outcome.{heard};
ghost use Rattle.lists.specs.Walks.{cyclic};
ghost use Rattle.sums.specs.Sum.{less};
ghost use Rattle.keys.specs.Rows.{Starts, rows};
ghost use Rattle.keys.specs.Sized.{Ordered};
ghost use Rattle.bodies.specs.Fusing.{run_of, edge_keys, judge_edge};
ghost use Rattle.edges.specs.Laid.{laid_runs, put_run, row_runs, Listed};
ghost use Rattle.edges.specs.Rims.{Rims};
ghost use Rattle.edges.specs.Pairing.{Edged, Part, Turned, face_of};
ghost use Rattle.edges.specs.Whole.{Room};

use refusal::Refusal;

// The walk over the edges: where it is in their order, and how many pairs of facets are met so far.
#[derive(Clone, Copy)]
pub struct Paired {
    pub at: usize,
    pub pairs: usize,
}

// One run at place c.
#[tactic(auto, using(crate::specs::Laid::second_room), unfolding(crate::specs::Laid::put_run))]
fn put_run(d: &mut [u64], c: usize, p: usize, x: u64, y: u64)
    requires { 3 * c + 2 < length d.old }
    ensures { d.new ≡ put_run d.old c p x y }
{
    d[3 * c] = p as u64;
    d[3 * c + 1] = x;
    d[3 * c + 2] = y;
}

// The runs round the facet v[a..e] at place p of the body, behind the c others.
fn face_runs(v: &[u64], a: usize, e: usize, p: usize, d: &mut [u64], c: usize) -> usize
    requires { (a ≤ e) × (e ≤ length v.now) × (3 * (c + (e - a)) ≤ length d.old) }
    ensures { (result ≡ c + (e - a)) × (laid_runs d.new result ≡ laid_runs d.old c ++ map (run_of p) (cyclic (slice a e v.now))) }
{
    let n = e - a;
    for i in 0..n {
        let x = v[a + i];
        let y = v[a + (i + 1) % n];
        put_run(d, c + i, p, x, y);
    }
    c + n
}

// The runs of all facets of a body. Returns how many.
fn all_runs(v: &[u64], starts: &[u64], f: usize, faces: &[u64], d: &mut [u64]) -> usize
    requires { Listed v.now starts.now f faces.now × (3 * length (row_runs v.now starts.now 0 faces.now) ≤ length d.old) }
    ensures { laid_runs d.new result ≡ row_runs v.now starts.now 0 faces.now }
{
    let mut c = 0;
    for (p, &face) in faces.iter().enumerate() {
        let i = face as usize;
        let a = starts[i] as usize;
        let e = starts[i + 1] as usize;
        c = face_runs(v, a, e, p, d, c);
    }
    c
}

fn lower(x: u64, y: u64) -> u64
    ensures { result ≡ min x y }
{
    if x < y {
        return x;
    }
    y
}

fn higher(x: u64, y: u64) -> u64
    ensures { result ≡ max x y }
{
    if x < y {
        return y;
    }
    x
}

fn put_key(k: &mut [u64], x: usize, a: u64, b: u64)
    requires { 2 * x + 1 < length k.old }
    ensures { k.new ≡ set (set k.old (2 * x) (min a b)) (2 * x + 1) (max a b) }
{
    k[2 * x] = lower(a, b);
    k[2 * x + 1] = higher(a, b);
}

// The keys of c runs, and where they begin.
fn edge_keys(d: &[u64], c: usize, k: &mut [u64], s: &mut [u64])
    requires { (3 * c ≤ length d.now) × (2 * c ≤ length k.old) × (c < length s.old) }
    ensures { Rims d.now c k.new s.new }
{
    for x in 0..c {
        let a = d[3 * x + 1];
        let b = d[3 * x + 2];
        put_key(k, x, a, b);
        s[x] = (2 * x) as u64;
    }
    s[c] = (2 * c) as u64;
}

// 1 where run x goes to a higher vertex, else 0.
#[tactic(auto, using(crate::specs::Pairing::rises_yes, crate::specs::Pairing::rises_no))]
fn rises(d: &[u64], x: usize) -> u64
    requires { 3 * x + 2 < length d.now }
    ensures { result ≡ less (get_or d.now (3 * x + 1) 0) (get_or d.now (3 * x + 2) 0) }
{
    let a = d[3 * x + 1];
    let b = d[3 * x + 2];
    if a < b {
        return 1;
    }
    0
}

// Two runs of one edge: 20 where one facet has both, or both go one way.
#[tactic(auto, using(crate::specs::Pairing::edge_judged))]
fn judge_edge(d: &[u64], c: usize, a: usize, b: usize) -> Result<(), Refusal>
    requires { (3 * c ≤ length d.now) × (a < c) × (b < c) }
    ensures { heard result tt ≡ judge_edge (laid_runs d.now c) (a ∷ b ∷ []) }
{
    let ra = rises(d, a);
    let rb = rises(d, b);
    interfaces::stop_if((d[3 * a] == d[3 * b]) | (ra == rb), 20)
}

// Their facets become a pair.
#[tactic(auto, using(crate::specs::Pairing::edge_stored))]
fn edge_two(
    d: &[u64],
    c: usize,
    a: usize,
    b: usize,
    ends: &mut [u64],
    y: usize,
) -> Result<(), Refusal>
    requires { (3 * c ≤ length d.now) × (a < c) × (b < c) × (2 * y + 1 < length ends.old) }
    ensures judged { heard result tt ≡ judge_edge (laid_runs d.now c) (a ∷ b ∷ []) }
    ensures stored { ends.new ≡ set (set ends.old (2 * y) (face_of (laid_runs d.now c) a)) (2 * y + 1) (face_of (laid_runs d.now c) b) }
{
    ends[2 * y] = d[3 * a];
    ends[2 * y + 1] = d[3 * b];
    judge_edge(d, c, a, b)
}

// One edge: two facets run it, or it is 20.
fn edge_run(
    d: &[u64],
    c: usize,
    k: &[u64],
    s: &[u64],
    ord: &[u64],
    ends: &mut [u64],
    m: Paired,
) -> Result<Paired, Refusal>
    requires c_in_bounds { (3 * c ≤ length d.now) × Starts k.now s.now c × Ordered k.now s.now c ord.now × (m.at < c) }
    requires part { Part (laid_runs d.now c) (rows k.now s.now c) ends.old m.at m.pairs }
    ensures { Turned (laid_runs d.now c) (rows k.now s.now c) ends.new m.at result }
{
    let p = m.at;
    let y = m.pairs;
    let size = keys::run_size(k, s, c, ord, p);
    if size == 2 {
        let a = ord[p] as usize;
        let b = ord[p + 1] as usize;
        edge_two(d, c, a, b, ends, y)?;
        return Ok(Paired {
            at: p + 2,
            pairs: y + 1,
        });
    }
    Err(refusal::refuse(20))
}

// All edges in the order of their keys.
fn walk_edges(
    d: &[u64],
    c: usize,
    k: &[u64],
    s: &[u64],
    ord: &[u64],
    ends: &mut [u64],
) -> Result<Paired, Refusal>
    requires c_in_bounds { (3 * c ≤ length d.now) × Starts k.now s.now c × Ordered k.now s.now c ord.now }
    requires c_value { (rows k.now s.now c ≡ edge_keys (laid_runs d.now c)) × (c ≤ length ends.old) }
    ensures { Edged (laid_runs d.now c) ends.new result }
{
    let mut m = Paired { at: 0, pairs: 0 };
    // The place jumps over the two runs of an edge, so this is no counting loop.
    while m.at < c {
        m = edge_run(d, c, k, s, ord, ends, m)?;
    }
    Ok(m)
}

// The edges of the body whose facets are listed: 20, or the pairs of facets, by their places in the body, in the order of edges.
pub fn check_edges(
    v: &[u64],
    starts: &[u64],
    f: usize,
    faces: &[u64],
    d: &mut [u64],
    k: &mut [u64],
    s: &mut [u64],
    ord: &mut [u64],
    ends: &mut [u64],
) -> Result<Paired, Refusal>
    requires listed { Listed v.now starts.now f faces.now }
    requires room { Room v.now starts.now faces.now d.old k.old s.old ord.old ends.old }
    ensures { Edged (row_runs v.now starts.now 0 faces.now) ends.new result }
{
    let c = all_runs(v, starts, f, faces, d);
    edge_keys(d, c, k, s);
    keys::sort_keys(k, s, c, ord);
    walk_edges(d, c, k, s, ord, ends)
}
