#![tactic(auto)]

// The facets of a body, and its shells: the facets that connect through edges inside the body.
ghost use Rattle.std.specs.Prelude.{◌≡◌, List, ◌++◌, map, ℕ, ◌+◌, ◌*◌, ◌<◌, ◌≤◌, length, get_or, take, drop};
ghost use Rattle.sums.specs.Sum.{occ};
ghost use Rattle.sums.specs.Keys.{keep};
ghost use Rattle.sums.specs.Components.{components};
ghost use Rattle.groups.specs.Groups.{Grouped, joins_of};
ghost use Rattle.shells.specs.Faces.{Told, Owned, more, stored};
ghost use Rattle.shells.specs.Named.{name_in, Placed, Spread};

// Whether x stands in the list.
fn contains(l: &[u64], x: u64) -> bool
    ensures { Told l.now x result }
{
    l.contains(&x)
}

// One facet more, where it is of the body.
fn keep_face(faces: &mut [u64], m: usize, i: u64, own: bool) -> usize
    requires { m < length faces.old }
    ensures { (result ≡ more own m) × (faces.new ≡ stored own faces.old m i) }
{
    if own {
        faces[m] = i;
        return m + 1;
    }
    m
}

// The facets of the body of some cells, in the order of their keys. Returns how many.
#[tactic(auto, using(crate::specs::Faces::keeping_step, crate::specs::Faces::keeping_few, crate::specs::Faces::keeping_end))]
pub fn body_faces(owners: &[u64], f: usize, ext: &[u64], cells: &[u64], faces: &mut [u64]) -> usize
    requires { Owned owners.now f ext.now × (length ext.now ≤ length faces.old) }
    ensures few { result ≤ length ext.now }
    ensures faces { take result faces.new ≡ keep (λ i. occ (get_or owners.now i 0) cells.now) ext.now }
{
    let mut m = 0;
    for i in ext {
        let own = contains(cells, owners[*i as usize]);
        m = keep_face(faces, m, *i, own);
    }
    m
}

// The first n places become facets.
fn name_facets(faces: &[u64], nodes: &mut [u64], n: usize)
    requires { Placed faces.now nodes.old n }
    ensures { nodes.new ≡ map (name_in faces.now) (take n nodes.old) ++ drop n nodes.old }
{
    for i in 0..n {
        nodes[i] = faces[nodes[i] as usize];
    }
}

// The shells of a body as found: groups of its facets in `nodes`, one after another, shell k from cuts[k] up to cuts[k + 1]. The
// ends are the places in the body of the facets that share an edge. Returns how many shells there are.
pub fn find_shells(
    ends: &[u64],
    head: &mut [u64],
    next: &mut [u64],
    seen: &mut [u64],
    work: &mut [u64],
    faces: &[u64],
    nodes: &mut [u64],
    cuts: &mut [u64],
) -> usize
    requires { Spread ends.now head.old next.old seen.old work.old faces.now nodes.old cuts.old }
    ensures { Grouped (map (map (name_in faces.now)) (components (length faces.now) (joins_of ends.now))) nodes.old cuts.old nodes.new cuts.new result }
{
    let g = groups::components(ends, head, next, seen, work, nodes, cuts);
    name_facets(faces, nodes, faces.len());
    g
}
