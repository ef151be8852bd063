#![tactic(auto)]

// The shells of a body written out, the outward one first: their facets, and how many facets each has. Shell k is d[c[k]..c[k + 1]].
ghost use Rattle.std.specs.Prelude.{◌≡◌, map, ℕ, ◌+◌, ◌-◌, ◌<◌, ◌≤◌, length, get_or};
ghost use Rattle.std.proofs.Math.Seq.{slice};
ghost use Rattle.keys.specs.Rows.{Starts, rows};
ghost use Rattle.groups.specs.Groups.{joined};
ghost use Rattle.cavities.specs.Outer.{outer_of};
ghost use Rattle.listing.specs.Appended.{appended, gaps};

// s[a..e] goes to `out` from `at` on: a loop, for the reason that stands at `stack::copy_front`.
fn copy_part(s: &[u64], a: usize, e: usize, out: &mut [u64], at: usize)
    requires { (a ≤ e) × (e ≤ length s.now) × (at + (e - a) ≤ length out.old) }
    ensures { out.new ≡ appended out.old at (slice a e s.now) }
{
    for i in a..e {
        out[at + (i - a)] = s[i];
    }
}

// How long row k is.
fn row_size(d: &[u64], c: &[u64], g: usize, k: usize) -> u64
    requires { Starts d.now c.now g × (k < g) }
    ensures { result ≡ get_or c.now (k + 1) 0 - get_or c.now k 0 }
{
    let low = c[k];
    let high = c[k + 1];
    high - low
}

// How long the n rows from a on are, to `out` from `at` on.
fn put_gaps(d: &[u64], c: &[u64], g: usize, a: usize, n: usize, out: &mut [u64], at: usize)
    requires { Starts d.now c.now g × (a + n ≤ g) × (at + n ≤ length out.old) }
    ensures { out.new ≡ appended out.old at (gaps c.now a n) }
{
    for i in 0..n {
        let size = row_size(d, c, g, a + i);
        out[at + i] = size;
    }
}

// d[a..e], then what is before it, then what is behind it up to z.
fn copy_three(d: &[u64], a: usize, e: usize, z: usize, out: &mut [u64], at: usize)
    requires { (a ≤ e) × (e ≤ z) × (z ≤ length d.now) × (at + z ≤ length out.old) }
    ensures { out.new ≡ appended (appended (appended out.old at (slice a e d.now)) (at + (e - a)) (slice 0 a d.now)) (at + e) (slice e z d.now) }
{
    copy_part(d, a, e, out, at);
    copy_part(d, 0, a, out, at + (e - a));
    copy_part(d, e, z, out, at + e);
}

// The facets of all g shells, those of the outward shell o first.
pub fn list_facets(d: &[u64], c: &[u64], g: usize, o: usize, out: &mut [u64], at: usize)
    requires { Starts d.now c.now g × (o < g) × (at + get_or c.now g 0 ≤ length out.old) }
    ensures { out.new ≡ appended out.old at (joined (outer_of (rows d.now c.now g) o)) }
{
    let a = c[o] as usize;
    let e = c[o + 1] as usize;
    let z = c[g] as usize;
    copy_three(d, a, e, z, out, at);
}

// And how many each has.
#[tactic(auto, using(crate::specs::Listed::sizes_listed))]
pub fn list_sizes(d: &[u64], c: &[u64], g: usize, o: usize, out: &mut [u64], at: usize)
    requires { Starts d.now c.now g × (o < g) × (at + g ≤ length out.old) }
    ensures { out.new ≡ appended out.old at (map length (outer_of (rows d.now c.now g) o)) }
{
    put_gaps(d, c, g, o, 1, out, at);
    put_gaps(d, c, g, 0, o, out, at + 1);
    put_gaps(d, c, g, o + 1, g - (o + 1), out, at + (o + 1));
}
