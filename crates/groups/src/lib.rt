#![tactic(auto)]

// `components` over lent slices. Pair p of `ends` joins the nodes ends[2 * p] and ends[2 * p + 1]; `all` is twice the number of pairs.
// head[i] is the first place of `ends` that has node i, next[e] the next place that has the node at e; `all` stands for none.
ghost use Rattle.std.specs.Prelude.{◌≡◌, ◌++◌, ℕ, ◌+◌, ◌-◌, ◌*◌, ◌/◌, ◌%◌, ◌<◌, ◌≤◌, length, get_or, replicate};
ghost use Rattle.sums.specs.Sum.{sum, open'};
ghost use Rattle.sums.specs.Components.{visit, visits, gather, start, components};
ghost use Rattle.groups.specs.Chain.{Linked, Inside, around};
ghost use Rattle.groups.specs.Stack.{state, Room, After, Net};
ghost use Rattle.groups.specs.Walk.{Walked};
ghost use Rattle.groups.specs.Groups.{Rooted, Roots, Within, Grouped, Cleared, joins_of};

// The places of each node, in ascending order; `head` holds `all` throughout before.
fn link(ends: &[u64], all: usize, head: &mut [u64], next: &mut [u64])
    requires { Inside ends.now all (length head.old) × (all ≤ length next.old) × (head.old ≡ replicate (length head.old) all) }
    ensures { Linked ends.now all head.old next.old head.new next.new }
{
    for e in (0..all).rev() {
        let c = ends[e] as usize;
        let h = head[c];
        next[e] = h;
        head[c] = e as u64;
    }
}

// `if seen.insert(j) { work.push(j) }`: the new height of the stack.
fn visit_node(seen: &mut [u64], work: &mut [u64], top: usize, j: usize) -> usize
    requires j_in_bounds { j < length seen.old }
    requires room { Room seen.old work.old top }
    ensures { After (visit j (state seen.old work.old top)) seen.old work.old seen.new work.new result }
{
    if seen[j] == 0 {
        seen[j] = 1;
        work[top] = j as u64;
        return top + 1;
    }
    top
}

// The neighbours of i, in the order of the pairs.
fn spread(
    ends: &[u64],
    all: usize,
    head: &[u64],
    next: &[u64],
    i: usize,
    seen: &mut [u64],
    work: &mut [u64],
    top: usize,
) -> usize
    requires net { Net ends.now all head.now next.now (length seen.old) × (i < length seen.old) }
    requires room { Room seen.old work.old top }
    ensures { After (visits (around ends.now all i) (state seen.old work.old top)) seen.old work.old seen.new work.new result }
{
    let mut t = top;
    let mut e = head[i] as usize;
    // e goes from each place to the next one of the chain, so this is no counting loop.
    while e < all {
        let j = ends[e + 1 - 2 * (e % 2)] as usize;
        t = visit_node(seen, work, t, j);
        e = next[e] as usize;
    }
    t
}

// The walk from a root that is not seen yet: its group goes to `nodes` from `at` on. Returns where it ends.
fn walk_from(
    ends: &[u64],
    all: usize,
    head: &[u64],
    next: &[u64],
    root: usize,
    seen: &mut [u64],
    work: &mut [u64],
    nodes: &mut [u64],
    at: usize,
) -> usize
    requires net { Net ends.now all head.now next.now (length seen.old) }
    requires root_in_bounds { (root < length seen.old) × (get_or seen.old root 0 ≡ 0) × (length seen.old ≤ length work.old) × (at + sum open' seen.old ≤ length nodes.old) }
    ensures { Walked (gather (around ends.now all) (length seen.old) (start seen.old root)) at seen.old work.old nodes.old seen.new work.new nodes.new result }
{
    seen[root] = 1;
    work[0] = root as u64;
    let mut top = 1;
    let mut p = at;
    // The stack grows and shrinks until it is empty, so this is no counting loop.
    while top > 0 {
        top -= 1;
        let i = work[top] as usize;
        nodes[p] = i as u64;
        p += 1;
        top = spread(ends, all, head, next, i, seen, work, top);
    }
    p
}

// One root of `components`: its group, if it is not seen yet.
fn root_step(
    ends: &[u64],
    all: usize,
    head: &[u64],
    next: &[u64],
    r: usize,
    seen: &mut [u64],
    work: &mut [u64],
    nodes: &mut [u64],
    cuts: &mut [u64],
    m: usize,
) -> usize
    requires net { Net ends.now all head.now next.now (length seen.old) × (r < length seen.old) }
    requires rooted { Rooted (around ends.now all) seen.old work.old nodes.old cuts.old m r }
    ensures { Roots (around ends.now all) m seen.old work.old nodes.old cuts.old seen.new work.new nodes.new cuts.new result (r + 1) }
{
    if seen[r] == 0 {
        let p = cuts[m] as usize;
        let e = walk_from(ends, all, head, next, r, seen, work, nodes, p);
        cuts[m + 1] = e as u64;
        return m + 1;
    }
    m
}

// The groups of all roots.
fn all_roots(
    ends: &[u64],
    all: usize,
    head: &[u64],
    next: &[u64],
    seen: &mut [u64],
    work: &mut [u64],
    nodes: &mut [u64],
    cuts: &mut [u64],
) -> usize
    requires net { Net ends.now all head.now next.now (length seen.old) × (seen.old ≡ replicate (length seen.old) 0) × (get_or cuts.old 0 0 ≡ 0) }
    requires seen_in_bounds { (length seen.old < length cuts.old) × (length seen.old ≤ length work.old) × (length seen.old ≤ length nodes.old) }
    ensures { Grouped (components (length seen.old) (around ends.now all)) nodes.old cuts.old nodes.new cuts.new result }
{
    let mut m = 0;
    for r in 0..seen.len() {
        m = root_step(ends, all, head, next, r, seen, work, nodes, cuts, m);
    }
    m
}

// The chains of all nodes.
#[tactic(auto, using(crate::specs::Chain::filled_inside, crate::specs::Chain::filled_same))]
fn chains(ends: &[u64], all: usize, head: &mut [u64], next: &mut [u64])
    requires { Inside ends.now all (length head.old) × (all ≤ length next.old) }
    ensures { Linked ends.now all head.old next.old head.new next.new }
{
    head.fill(all as u64);
    link(ends, all, head, next);
}

// All zero.
fn clear_four(a: &mut [u64], b: &mut [u64], c: &mut [u64], d: &mut [u64])
    ensures { Cleared a.old b.old c.old d.old a.new b.new c.new d.new }
{
    a.fill(0);
    b.fill(0);
    c.fill(0);
    d.fill(0);
}

// The connected classes of the nodes below seen.len(), in the order and by the last-in-first-out walk of fuse.rs. They stand in
// `nodes` one after another, group k from cuts[k] up to cuts[k + 1]. Returns how many there are; the other slices are left zero.
pub fn components(
    ends: &[u64],
    head: &mut [u64],
    next: &mut [u64],
    seen: &mut [u64],
    work: &mut [u64],
    nodes: &mut [u64],
    cuts: &mut [u64],
) -> usize
    requires within { Within ends.now (length seen.old) × (length head.old ≡ length seen.old) × (length ends.now ≤ length next.old) }
    requires seen_in_bounds { (length seen.old < length cuts.old) × (length seen.old ≤ length work.old) × (length seen.old ≤ length nodes.old) }
    ensures classes { Grouped (components (length seen.old) (joins_of ends.now)) nodes.old cuts.old nodes.new cuts.new result }
    ensures scratch { Cleared head.old next.old seen.old work.old head.new next.new seen.new work.new }
{
    let all = ends.len() / 2 * 2;
    chains(ends, all, head, next);
    seen.fill(0);
    cuts[0] = 0;
    let m = all_roots(ends, all, head, next, seen, work, nodes, cuts);
    clear_four(head, next, seen, work);
    m
}
