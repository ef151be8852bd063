#![tactic(auto)]

// The mesh of one facet for the tests that call it from outside. 64 says that a slice was too short for the call, which then
// leaves everything as it was.
ghost use Rattle.std.specs.Prelude.{◌≡◌, [], ◌∷◌, ◌+◌, ◌≤◌, length, set};
ghost use Rattle.std.proofs.lemmas.List.Edits.{sets};
ghost use Rattle.refusal.specs.Outcome.{number_of};
ghost use Rattle.lent.specs.Lent.{plane_by};
ghost use Rattle.mesh_leaf.specs.Drawing.{triangles_in, places, Few, places_by, count_by, Drawn, mesh_fits, mesh_lent};

use ears::Triangle;
use mesh::Triples;
use refusal::Refusal;
use space::Precision;

const SHORT: u64 = 64;

fn put_triangle(out: &mut [u64], at: usize, w: Triangle)
    requires { at + 3 ≤ length out.old }
    ensures { out.new ≡ sets out.old at (w.a ∷ w.b ∷ w.c ∷ []) }
{
    out[at] = w.a as u64;
    out[at + 1] = w.b as u64;
    out[at + 2] = w.c as u64;
}

fn put_triples(out: &mut [u64], t: Triples)
    requires { (378 ≤ length out.old) × (t.n ≤ 126) }
    ensures { out.new ≡ sets out.old 0 (places (triangles_in t)) }
{
    for i in 0..t.n {
        put_triangle(out, 3 * i, t.at[i]);
    }
}

// The triangles, and how many there are, or the number of the refusal.
#[tactic(auto, unfolding(crate::specs::Drawing::places_by, crate::specs::Drawing::count_by, refusal::specs::Outcome::number_of))]
fn put_meshed(out: &mut [u64], told: &mut [u64], m: Result<Triples, Refusal>) -> u64
    requires { (378 ≤ length out.old) × (1 ≤ length told.old) × Few m }
    ensures value { result ≡ number_of m }
    ensures out_after { out.new ≡ places_by m out.old }
    ensures told_after { told.new ≡ count_by m told.old }
{
    match m {
        Err(e) => e.number,
        Ok(t) => {
            told[0] = t.n as u64;
            put_triples(out, t);
            0
        }
    }
}

#[tactic(auto, unfolding(crate::specs::Drawing::mesh_fits))]
fn mesh_fits(plane: usize, out: usize, told: usize) -> bool
    ensures { result ≡ mesh_fits plane out told }
{
    (12 <= plane) & ((378 <= out) & (1 <= told))
}

// The corners lie in `corners`, three floats each.
#[unsafe(no_mangle)]
pub extern "C" fn leaf_mesh(
    plane: &[f64],
    linear: f64,
    local: f64,
    corners: &[f64],
    out: &mut [u64],
    told: &mut [u64],
) -> u64
    ensures { Drawn (mesh_lent (mesh_fits (length plane.now) (length out.old) (length told.old)) (record { linear = linear; local = local }) (plane_by plane.now) corners.now) result out.old told.old out.new told.new }
{
    let fits = mesh_fits(plane.len(), out.len(), told.len());
    if !fits {
        return SHORT;
    }
    let p = Precision { linear, local };
    let w = lent::plane_by(plane);
    put_meshed(out, told, mesh::mesh(p, w, corners))
}
