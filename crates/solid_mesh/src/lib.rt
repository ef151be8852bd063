#![tactic(auto)]

// The mesh of one facet as C++ calls it.
ghost use Rattle.std.specs.Prelude.{◌≡◌, ◌+◌, ◌*◌, ◌≤◌, length};
ghost use Rattle.std.proofs.lemmas.List.Edits.{sets};
ghost use Rattle.job.specs.Read.{facet_at};
ghost use Rattle.writer.specs.Rows.{row};
ghost use Rattle.solid_mesh.specs.Mesh.{triangle_answer, triangles_in, Drawn, is_small, mesh_bytes, mesh_call};
ghost use Rattle.solid_mesh.specs.Laws.{drawing, Few};

use ears::Triangle;
use job::FacetLayout;
use mesh::Triples;
use refusal::Refusal;

fn put_triangle(out: &mut [u8], at: usize, w: Triangle)
    requires { at + 12 ≤ length out.old }
    ensures { out.new ≡ sets out.old at (triangle_answer w) }
{
    words::put_count(out, at, w.a as u64);
    words::put_count(out, at + 4, w.b as u64);
    words::put_count(out, at + 8, w.c as u64);
}

// All triangles; returns how many bytes they take.
fn put_triples(out: &mut [u8], t: Triples) -> usize
    requires { (t.n ≤ 126) × (12 * t.n ≤ length out.old) }
    ensures value { (result ≡ length (row triangle_answer (triangles_in t))) × (result ≤ 1512) }
    ensures out_after { out.new ≡ sets out.old 0 (row triangle_answer (triangles_in t)) }
{
    for i in 0..t.n {
        put_triangle(out, 12 * i, t.at[i]);
    }
    12 * t.n
}

// The triangles, or the number of the refusal.
fn put_meshed(out: &mut [u8], m: Result<Triples, Refusal>) -> u64
    requires { Few m (length out.old) }
    ensures { Drawn (drawing m) result out.old out.new }
{
    match m {
        Err(e) => e.number,
        Ok(t) => {
            let n = put_triples(out, t);
            256 * (n as u64)
        }
    }
}

// The mesh of a facet of at most 128 corners.
fn draw(facet: &[u8], y: FacetLayout, answer: &mut [u8]) -> u64
    requires { (y.points ≤ 128) × (64 * y.points ≤ length answer.old) }
    ensures { Drawn (mesh_bytes (facet_at facet.now y)) result answer.old answer.new }
{
    let n = y.points;
    let mut corners = [0.0; 384];
    pack::unpack_points(facet, y.start, n, &mut corners);
    let m = mesh::mesh(y.precision, y.plane, &corners[..3 * n]);
    put_meshed(answer, m)
}

fn is_small(size: usize, n: usize) -> bool
    ensures { result ≡ is_small size n }
{
    size / 64 < n
}

// A facet's bytes (tolerances, plane, corners) to triples of corner places. Returns 01's number and, times 256, the bytes written.
pub fn mesh(facet: &[u8], answer: &mut [u8]) -> u64
    ensures { Drawn (mesh_call (length answer.old) facet.now) result answer.old answer.new }
{
    match job::read_facet(facet) {
        Err(r) => r.number,
        Ok(y) => {
            if is_small(answer.len(), y.points) {
                return 12;
            }
            if 128 < y.points {
                return 12;
            }
            draw(facet, y, answer)
        }
    }
}
