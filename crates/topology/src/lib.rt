#![tactic(auto)]

// The faces of a solid among each other. Corners stand in three slices, face after face: `places` has the points, `nexts` the next
// point of the same face, and `faces` the number of the face.
ghost use Rattle.std.specs.Prelude.{◌≡◌, cond, true, false, ◌++◌, map, ◌+◌, ◌*◌, ◌%◌, ◌≤◌, ◌<◌, length, take, eqb};
ghost use Rattle.lists.specs.Walks.{cyclic, all};
ghost use Rattle.sums.specs.Components.{components};
ghost use Rattle.groups.specs.Chain.{up_from};
ghost use Rattle.groups.specs.Groups.{joins_of, Within};
ghost use Rattle.room.specs.Rooms.{counts_at};
ghost use Rattle.solids.specs.Sides.{has};
ghost use Rattle.solids.specs.Frames.{faces_at, Placing};
ghost use Rattle.topology.specs.Topology.{corner_of, corners_of, fits, across, joins, rounded, sound};
ghost use Rattle.topology.specs.Corners.{corner_at, corners_at, paired, Tallied};

fn one_more(k: usize, hit: bool) -> usize
    requires { k < 18446744073709551615 }
    ensures { result ≡ cond hit (k + 1) k }
{
    if hit {
        return k + 1;
    }
    k
}

// How often a point stands in a face, and the reverse of an edge among all.
#[derive(Clone, Copy)]
struct Counts {
    alone: usize,
    reverse: usize,
}

// The point x of face f, and the edge from y to x, counted among c corners in one pass.
fn tally(places: &[u64], nexts: &[u64], faces: &[u64], c: usize, f: u64, x: u64, y: u64) -> Counts
    requires { (c ≤ length places.now) × (c ≤ length nexts.now) × (c ≤ length faces.now) }
    ensures { Tallied places.now nexts.now faces.now c f x y result.alone result.reverse }
{
    let mut alone = 0;
    let mut reverse = 0;
    for i in 0..c {
        let p = places[i];
        let q = nexts[i];
        let g = faces[i];
        alone = one_more(alone, (g == f) & (p == x));
        reverse = one_more(reverse, (p == y) & (q == x));
    }
    Counts { alone, reverse }
}

// Corner i of c: its index is below m, its point stands once in its face, and the reverse of its edge stands once. Where this holds
// of all corners, each edge stands once too.
fn is_fit(m: usize, places: &[u64], nexts: &[u64], faces: &[u64], c: usize, i: usize) -> bool
    requires { (c ≤ length places.now) × (c ≤ length nexts.now) × (c ≤ length faces.now) × (i < c) }
    ensures { result ≡ paired m (corners_at places.now nexts.now faces.now 0 c) (corner_at places.now nexts.now faces.now i) }
{
    let x = places[i];
    let y = nexts[i];
    let f = faces[i];
    let known = (x as usize) < m;
    let s = tally(places, nexts, faces, c, f, x, y);
    (known & (s.alone == 1)) & (s.reverse == 1)
}

fn all_fit(m: usize, places: &[u64], nexts: &[u64], faces: &[u64], c: usize) -> bool
    requires { (c ≤ length places.now) × (c ≤ length nexts.now) × (c ≤ length faces.now) }
    ensures { result ≡ all (fits m (corners_at places.now nexts.now faces.now 0 c)) true (corners_at places.now nexts.now faces.now 0 c) }
{
    let mut fine = true;
    for i in 0..c {
        fine = fine & is_fit(m, places, nexts, faces, c, i);
    }
    fine
}

// Each of the points below m is a corner of c.
fn all_used(places: &[u64], c: usize, m: usize) -> bool
    requires { c ≤ length places.now }
    ensures { result ≡ all (λ x. has x false (counts_at places.now 0 c)) true (up_from 0 m) }
{
    let mut fine = true;
    for x in 0..m {
        fine = fine & solids::is_corner(places, 0, c, x);
    }
    fine
}

// The face across the edge of corner i of c. The last corner that has the reverse tells it, so they are searched from the end.
fn face_across(places: &[u64], nexts: &[u64], faces: &[u64], c: usize, i: usize) -> u64
    requires { (c ≤ length places.now) × (c ≤ length nexts.now) × (c ≤ length faces.now) × (i < c) }
    ensures { result ≡ across (corners_at places.now nexts.now faces.now 0 c) (corner_at places.now nexts.now faces.now i) }
{
    let a = nexts[i];
    let b = places[i];
    for q in (0..c).rev() {
        if (places[q] == a) & (nexts[q] == b) {
            return faces[q];
        }
    }
    faces[i]
}

// Each corner's face and the one across go to `ends`.
fn put_joins(places: &[u64], nexts: &[u64], faces: &[u64], c: usize, ends: &mut [u64])
    requires { (c ≤ length places.now) × (c ≤ length nexts.now) × (c ≤ length faces.now) × (2 * c ≤ length ends.old) }
    ensures { take (2 * c) ends.new ≡ joins (corners_at places.now nexts.now faces.now 0 c) (corners_at places.now nexts.now faces.now 0 c) }
{
    for i in 0..c {
        ends[2 * i] = faces[i];
        ends[2 * i + 1] = face_across(places, nexts, faces, c, i);
    }
}

// The place after i of n, round.
fn after(i: usize, n: usize) -> usize
    requires { i < n }
    ensures { (result ≡ (i + 1) % n) × (result < n) }
{
    (i + 1) % n
}

// The corners of face f, n from a place on.
fn put_corners(places: &[u64], at: usize, n: usize, f: usize, nexts: &mut [u64], faces: &mut [u64])
    requires { (at + n ≤ length places.now) × (at + n ≤ length nexts.old) × (at + n ≤ length faces.old) }
    ensures { corners_at places.now nexts.new faces.new 0 (at + n) ≡ corners_at places.now nexts.old faces.old 0 at ++ map (corner_of f) (cyclic (counts_at places.now at n)) }
{
    for i in 0..n {
        let o = after(i, n);
        nexts[at + i] = places[at + o];
        faces[at + i] = f as u64;
    }
}

// The corners of n faces; returns how many there are.
fn lay_corners(
    places: &[u64],
    counts: &[u64],
    n: usize,
    nexts: &mut [u64],
    faces: &mut [u64],
) -> usize
    requires { (n ≤ length counts.now) × Placing (counts_at counts.now 0 n) 0 (length places.now) × (length places.now ≤ length nexts.old) × (length places.now ≤ length faces.old) }
    ensures result_after { corners_at places.now nexts.new faces.new 0 result ≡ corners_of 0 (faces_at places.now 0 (counts_at counts.now 0 n)) }
    ensures upper_bound { result ≤ length places.now }
{
    let mut at = 0;
    for j in 0..n {
        let c = counts[j] as usize;
        put_corners(places, at, c, j, nexts, faces);
        at += c;
    }
    at
}

// Points - edges + faces = 2, for m points, n faces and c corners.
fn is_round(m: usize, n: usize, c: usize) -> bool
    requires { c < 18446744073709551615 }
    ensures { result ≡ rounded m n c }
{
    let most = c / 2 + 2;
    if most < n {
        return false;
    }
    m == most - n
}

// The n faces are one class by the first e of `ends`.
fn is_one(
    ends: &[u64],
    e: usize,
    n: usize,
    head: &mut [u64],
    next: &mut [u64],
    seen: &mut [u64],
    work: &mut [u64],
    nodes: &mut [u64],
    cuts: &mut [u64],
) -> bool
    requires e_in_bounds { (e ≤ length ends.now) × Within (take e ends.now) n }
    requires n_in_bounds { (n ≤ length head.old) × (e ≤ length next.old) × (n ≤ length seen.old) }
    requires n_in_bounds_2 { (n ≤ length work.old) × (n ≤ length nodes.old) × (n < length cuts.old) }
    ensures { result ≡ eqb (length (components n (joins_of (take e ends.now)))) 1 }
{
    let found = groups::components(
        &ends[..e],
        &mut head[..n],
        &mut next[..e],
        &mut seen[..n],
        &mut work[..n],
        nodes,
        cuts,
    );
    found == 1
}

// The faces of a solid of m points fit together. `next` and `nodes` hold the corners' next points and faces meanwhile.
pub fn is_sound(
    m: usize,
    places: &[u64],
    counts: &[u64],
    n: usize,
    ends: &mut [u64],
    head: &mut [u64],
    next: &mut [u64],
    seen: &mut [u64],
    work: &mut [u64],
    nodes: &mut [u64],
    cuts: &mut [u64],
) -> bool
    requires n_in_bounds { (n ≤ length counts.now) × Placing (counts_at counts.now 0 n) 0 (length places.now) }
    requires places_in_bounds { (2 * length places.now ≤ length ends.old) × (2 * length places.now ≤ length next.old) × (length places.now ≤ length nodes.old) }
    requires n_in_bounds_2 { (n ≤ length head.old) × (n ≤ length seen.old) × (n ≤ length work.old) × (n ≤ length nodes.old) × (n < length cuts.old) }
    ensures { result ≡ sound m (faces_at places.now 0 (counts_at counts.now 0 n)) }
{
    let c = lay_corners(places, counts, n, next, nodes);
    if !is_round(m, n, c) {
        return false;
    }
    put_joins(places, next, nodes, c, ends);
    let fit = all_fit(m, places, next, nodes, c);
    let used = all_used(places, c, m);
    let one = is_one(ends, 2 * c, n, head, next, seen, work, nodes, cuts);
    (fit & used) & one
}
