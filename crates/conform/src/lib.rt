#![tactic(auto)]

// `conform`: a facet's cycle of vertices, with the vertices of the arrangement inside each of its edges.
ghost use Rattle.std.specs.Prelude.{◌≡◌, ◌+◌, ◌*◌, ◌≤◌, ◌<◌, length, set, take};
ghost use Rattle.std.proofs.lemmas.List.Edits.{sets};
ghost use Rattle.polygon.specs.Memory.{points_at};
ghost use Rattle.room.specs.Rooms.{counts_at};
ghost use Rattle.inside.specs.Edges.{inside_edge};
ghost use Rattle.inside.specs.Slices.{Roomy};
ghost use Rattle.conform.specs.Conform.{conform};
ghost use Rattle.conform.specs.Cycles.{Among, Spliced, Conformed};

use refusal::Refusal;
use space::Precision;

// x goes to place i, where the slice has one.
fn store(out: &mut [u64], i: usize, x: u64)
    ensures { out.new ≡ set out.old i x }
{
    if i >= out.len() {
        return;
    }
    out[i] = x;
}

// The first m places go to `out` from `at` on, as far as it reaches.
fn append(out: &mut [u64], at: usize, places: &[u64], m: usize)
    requires { (m ≤ length places.now) × (at + m ≤ 9223372036854775808) }
    ensures { out.new ≡ sets out.old at (take m places.now) }
{
    for i in 0..m {
        store(out, at + i, places[i]);
    }
}

// Vertex i and those inside the edge from it to vertex j go to `out` from `at` on. Returns how many they are.
fn conform_edge(
    t: Precision,
    points: &[f64],
    n: usize,
    i: usize,
    j: usize,
    lows: &mut [f64],
    highs: &mut [f64],
    places: &mut [u64],
    out: &mut [u64],
    at: usize,
) -> Result<usize, Refusal>
    requires { (3 * n ≤ length points.now) × Roomy n lows.old highs.old places.old × (i < n) × (j < n) × (n ≤ 4096) × (at ≤ 4611686018428000000) }
    ensures { Spliced (inside_edge t (points_at points.now 0 n) i j) i n at lows.old highs.old places.old out.old lows.new highs.new places.new out.new result }
{
    let m = inside::inside_edge(t, points, n, i, j, lows, highs, places)?;
    store(out, at, i as u64);
    append(out, at + 1, places, m);
    Ok(m + 1)
}

// The cycle of c vertices, each one of n points, from `first` on, with the vertices inside its edges, goes to `out` from `at` on, as
// far as it reaches. Returns how many they are.
pub fn conform(
    t: Precision,
    points: &[f64],
    n: usize,
    cycle: &[u64],
    first: usize,
    c: usize,
    lows: &mut [f64],
    highs: &mut [f64],
    places: &mut [u64],
    out: &mut [u64],
    at: usize,
) -> Result<usize, Refusal>
    requires { (3 * n ≤ length points.now) × Roomy n lows.old highs.old places.old × Among n cycle.now first c × (n ≤ 4096) × (at ≤ 4611686018427387904) }
    ensures { Conformed (conform t (points_at points.now 0 n) (counts_at cycle.now first c)) at lows.old highs.old places.old out.old lows.new highs.new places.new out.new result }
{
    let mut q = 0;
    for i in 0..c {
        let a = cycle[first + i] as usize;
        let b = cycle[first + (i + 1) % c] as usize;
        let m = conform_edge(t, points, n, a, b, lows, highs, places, out, at + q)?;
        q += m;
    }
    Ok(q)
}
