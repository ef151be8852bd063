#![tactic(auto)]

// The bytes of fused bodies. The plane of facet i stands in s at spots[i]; its corners are the points of its cycle
// v[starts[i]..starts[i + 1]], point k from 3 * k on. Each function takes the place where it begins.
ghost use Rattle.std.specs.Prelude.{◌≡◌, ℕ, ◌+◌, ◌*◌, ◌≤◌, ◌<◌, length, get_or, set};
ghost use Rattle.std.proofs.lemmas.List.Edits.{sets};
ghost use Rattle.room.specs.Rooms.{counts_at, Within};
ghost use Rattle.writer.specs.Rows.{row};
ghost use Rattle.volume.specs.Shell.{Points};
ghost use Rattle.solids.specs.Frames.{faces_at, Placing};
ghost use Rattle.fused_answer.specs.Fused.{corner_bytes, Drawn, facet_bytes, shell_bytes, shells_bytes, body_bytes};
ghost use Rattle.fused_answer.specs.Bodies.{total, bodies_at, Stacked};
ghost use Rattle.fused_answer.specs.Spots.{spots_from};

// The places behind what is written: in bytes, and of its facets.
#[derive(Clone, Copy)]
pub struct Written {
    pub at: usize,
    pub facets: usize,
}

// Where the planes of f faces stand in m floats, one face behind another.
pub fn plane_spots(counts: &[u64], f: usize, m: usize, spots: &mut [u64])
    requires { (f ≤ length counts.now) × (f ≤ length spots.old) × Within (counts_at counts.now 0 f) 0 m }
    ensures { spots.new ≡ sets spots.old 0 (spots_from 0 (counts_at counts.now 0 f)) }
{
    let mut o = 0;
    for i in 0..f {
        let n = counts[i] as usize;
        spots[i] = o as u64;
        o += room::PLANE + 3 * n;
    }
}

// n corners of a cycle, from a on.
fn put_corners(points: &[f64], v: &[u64], a: usize, n: usize, out: &mut [u8], at: usize)
    requires { Points points.now v.now × (a + n ≤ length v.now) × (at + 24 * n ≤ length out.old) }
    ensures { out.new ≡ sets out.old at (row (corner_bytes points.now) (counts_at v.now a n)) }
{
    for i in 0..n {
        let p = v[a + i] as usize;
        let q = polygon::get_point(points, 3 * p);
        answer::put_point(out, at + 24 * i, q);
    }
}

// Facet i; returns the place behind it.
fn put_facet(
    s: &[f64],
    spots: &[u64],
    points: &[f64],
    v: &[u64],
    starts: &[u64],
    f: usize,
    i: usize,
    out: &mut [u8],
    at: usize,
) -> usize
    requires { Drawn s.now spots.now points.now v.now starts.now f × (i < f) × (at + length (facet_bytes s.now spots.now points.now v.now starts.now i) ≤ length out.old) }
    ensures value { result ≡ at + length (facet_bytes s.now spots.now points.now v.now starts.now i) }
    ensures out_after { out.new ≡ sets out.old at (facet_bytes s.now spots.now points.now v.now starts.now i) }
{
    let w = room::get_plane(s, spots[i] as usize);
    let a = starts[i] as usize;
    let n = starts[i + 1] as usize - a;
    answer::put_plane(out, at, w);
    words::put_count(out, at + 96, n as u64);
    put_corners(points, v, a, n, out, at + 100);
    at + 100 + 24 * n
}

// The facets of a list; returns the place behind them.
fn put_facets(
    s: &[f64],
    spots: &[u64],
    points: &[f64],
    v: &[u64],
    starts: &[u64],
    f: usize,
    facets: &[u64],
    out: &mut [u8],
    at: usize,
) -> usize
    requires { Drawn s.now spots.now points.now v.now starts.now f × ((k : ℕ) → k < length facets.now → get_or facets.now k 0 < f) × (at + length (row (facet_bytes s.now spots.now points.now v.now starts.now) facets.now) ≤ length out.old) }
    ensures value { result ≡ at + length (row (facet_bytes s.now spots.now points.now v.now starts.now) facets.now) }
    ensures out_after { out.new ≡ sets out.old at (row (facet_bytes s.now spots.now points.now v.now starts.now) facets.now) }
{
    let mut p = at;
    for &facet in facets {
        let k = facet as usize;
        p = put_facet(s, spots, points, v, starts, f, k, out, p);
    }
    p
}

fn put_sense(out: &mut [u8], at: usize, sense: u8)
    requires { at < length out.old }
    ensures { out.new ≡ set out.old at sense }
{
    out[at] = sense;
}

// A shell: its sense, 1 for outward and 0 for inward, and its facets; returns the place behind it.
fn put_shell(
    sense: u8,
    s: &[f64],
    spots: &[u64],
    points: &[f64],
    v: &[u64],
    starts: &[u64],
    f: usize,
    facets: &[u64],
    out: &mut [u8],
    at: usize,
) -> usize
    requires { Drawn s.now spots.now points.now v.now starts.now f × ((k : ℕ) → k < length facets.now → get_or facets.now k 0 < f) × (at + length (shell_bytes s.now spots.now points.now v.now starts.now sense facets.now) ≤ length out.old) }
    ensures value { result ≡ at + length (shell_bytes s.now spots.now points.now v.now starts.now sense facets.now) }
    ensures out_after { out.new ≡ sets out.old at (shell_bytes s.now spots.now points.now v.now starts.now sense facets.now) }
{
    put_sense(out, at, sense);
    words::put_count(out, at + 1, facets.len() as u64);
    put_facets(s, spots, points, v, starts, f, facets, out, at + 5)
}

// k shells, whose facets stand from `from` on and whose sizes from `sat` on: the first is outward, the others are inward.
fn put_shells(
    s: &[f64],
    spots: &[u64],
    points: &[f64],
    v: &[u64],
    starts: &[u64],
    f: usize,
    facets: &[u64],
    from: usize,
    sizes: &[u64],
    sat: usize,
    k: usize,
    out: &mut [u8],
    at: usize,
) -> Written
    requires { Drawn s.now spots.now points.now v.now starts.now f × ((m : ℕ) → m < length facets.now → get_or facets.now m 0 < f) × (sat + k ≤ length sizes.now) × Placing (counts_at sizes.now sat k) from (length facets.now) × (at + length (shells_bytes s.now spots.now points.now v.now starts.now 1 (faces_at facets.now from (counts_at sizes.now sat k))) ≤ length out.old) }
    ensures value { result ≡ record { at = at + length (shells_bytes s.now spots.now points.now v.now starts.now 1 (faces_at facets.now from (counts_at sizes.now sat k))); facets = from + total (counts_at sizes.now sat k) } }
    ensures out_after { out.new ≡ sets out.old at (shells_bytes s.now spots.now points.now v.now starts.now 1 (faces_at facets.now from (counts_at sizes.now sat k))) }
{
    let mut sense: u8 = 1;
    let mut p = at;
    let mut q = from;
    for j in 0..k {
        let n = sizes[sat + j] as usize;
        p = put_shell(
            sense,
            s,
            spots,
            points,
            v,
            starts,
            f,
            &facets[q..q + n],
            out,
            p,
        );
        sense = 0;
        q += n;
    }
    Written { at: p, facets: q }
}

// A body of k shells.
fn put_body(
    s: &[f64],
    spots: &[u64],
    points: &[f64],
    v: &[u64],
    starts: &[u64],
    f: usize,
    facets: &[u64],
    from: usize,
    sizes: &[u64],
    sat: usize,
    k: usize,
    out: &mut [u8],
    at: usize,
) -> Written
    requires { Drawn s.now spots.now points.now v.now starts.now f × ((m : ℕ) → m < length facets.now → get_or facets.now m 0 < f) × (sat + k ≤ length sizes.now) × Placing (counts_at sizes.now sat k) from (length facets.now) × (at + length (body_bytes s.now spots.now points.now v.now starts.now (faces_at facets.now from (counts_at sizes.now sat k))) ≤ length out.old) }
    ensures value { result ≡ record { at = at + length (body_bytes s.now spots.now points.now v.now starts.now (faces_at facets.now from (counts_at sizes.now sat k))); facets = from + total (counts_at sizes.now sat k) } }
    ensures out_after { out.new ≡ sets out.old at (body_bytes s.now spots.now points.now v.now starts.now (faces_at facets.now from (counts_at sizes.now sat k))) }
{
    words::put_count(out, at, k as u64);
    put_shells(
        s,
        spots,
        points,
        v,
        starts,
        f,
        facets,
        from,
        sizes,
        sat,
        k,
        out,
        at + 4,
    )
}

// g bodies, whose facets, shells' sizes and numbers of shells lie in three slices; returns the place behind them.
pub fn put_bodies(
    s: &[f64],
    spots: &[u64],
    points: &[f64],
    v: &[u64],
    starts: &[u64],
    f: usize,
    facets: &[u64],
    sizes: &[u64],
    shells: &[u64],
    g: usize,
    out: &mut [u8],
    at: usize,
) -> usize
    requires { Drawn s.now spots.now points.now v.now starts.now f × ((m : ℕ) → m < length facets.now → get_or facets.now m 0 < f) × (g ≤ length shells.now) × Stacked facets.now sizes.now 0 0 (counts_at shells.now 0 g) × (at + length (row (body_bytes s.now spots.now points.now v.now starts.now) (bodies_at facets.now sizes.now 0 0 (counts_at shells.now 0 g))) ≤ length out.old) }
    ensures value { result ≡ at + length (row (body_bytes s.now spots.now points.now v.now starts.now) (bodies_at facets.now sizes.now 0 0 (counts_at shells.now 0 g))) }
    ensures out_after { out.new ≡ sets out.old at (row (body_bytes s.now spots.now points.now v.now starts.now) (bodies_at facets.now sizes.now 0 0 (counts_at shells.now 0 g))) }
{
    let mut p = at;
    let mut q = 0;
    let mut j = 0;
    for i in 0..g {
        let k = shells[i] as usize;
        let w = put_body(
            s, spots, points, v, starts, f, facets, q, sizes, j, k, out, p,
        );
        p = w.at;
        q = w.facets;
        j += k;
    }
    p
}
