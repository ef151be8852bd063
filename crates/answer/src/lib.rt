#![tactic(auto)]

// Answers written into bytes out of lent slices; each function takes the place where it begins.
ghost use Rattle.std.specs.Prelude.{◌≡◌, ◌+◌, ◌*◌, ◌≤◌, ◌<◌, length, set};
ghost use Rattle.std.proofs.lemmas.List.Edits.{sets};
ghost use Rattle.words.specs.Little.{digits};
ghost use Rattle.polygon.specs.Memory.{points_at};
ghost use Rattle.room.specs.Rooms.{plane_size, counts_at, face_at, cell_at, Within};
ghost use Rattle.job.specs.Written.{point_bytes};
ghost use Rattle.solids.specs.Frames.{faces_at};
ghost use Rattle.writer.specs.Rows.{row};
ghost use Rattle.writer.specs.Writing.{solid_in, Lent};
ghost use Rattle.answer.specs.Answers.{face_answer, solid_answer, plane_bytes, facet_answer, shell_answer};

use space::{Plane, Point3};

// n indices that stand from k on.
#[tactic(auto, using(writer::specs::Rows::numbers_start, writer::specs::Rows::numbers_end))]
fn put_places(places: &[u64], k: usize, n: usize, out: &mut [u8], at: usize)
    requires { (k + n ≤ length places.now) × (at + 4 * n ≤ length out.old) }
    ensures { out.new ≡ sets out.old at (row (digits 4) (counts_at places.now k n)) }
{
    for i in 0..n {
        let x = places[k + i];
        words::put_count(out, at + 4 * i, x);
    }
}

// The face whose n corners have the places from k on.
fn put_face(places: &[u64], k: usize, n: usize, out: &mut [u8], at: usize)
    requires { (k + n ≤ length places.now) × (at + 4 + 4 * n ≤ length out.old) }
    ensures { out.new ≡ sets out.old at (face_answer (counts_at places.now k n)) }
{
    words::put_count(out, at, n as u64);
    put_places(places, k, n, out, at + 4);
}

// All faces of a solid; returns the place behind them.
fn put_faces(places: &[u64], counts: &[u64], n: usize, out: &mut [u8], at: usize) -> usize
    requires { Lent places.now counts.now n × (at + length (row face_answer (faces_at places.now 0 (counts_at counts.now 0 n))) ≤ length out.old) }
    ensures value { result ≡ at + length (row face_answer (faces_at places.now 0 (counts_at counts.now 0 n))) }
    ensures out_after { out.new ≡ sets out.old at (row face_answer (faces_at places.now 0 (counts_at counts.now 0 n))) }
{
    let mut k = 0;
    let mut o = at;
    for j in 0..n {
        let c = counts[j] as usize;
        put_face(places, k, c, out, o);
        k += c;
        o += 4 + 4 * c;
    }
    o
}

pub fn put_point(out: &mut [u8], at: usize, p: Point3)
    requires { at + 24 ≤ length out.old }
    ensures { out.new ≡ sets out.old at (point_bytes p) }
{
    words::put_float(out, at, p.x);
    words::put_float(out, at + 8, p.y);
    words::put_float(out, at + 16, p.z);
}

// m points that stand in a slice from a place on.
#[tactic(auto, using(writer::specs::Rows::points_start, writer::specs::Rows::points_end))]
fn put_points(s: &[f64], from: usize, m: usize, out: &mut [u8], at: usize)
    requires { (from + 3 * m ≤ length s.now) × (at + 24 * m ≤ length out.old) }
    ensures { out.new ≡ sets out.old at (row point_bytes (points_at s.now from m)) }
{
    for i in 0..m {
        let q = polygon::get_point(s, from + 3 * i);
        put_point(out, at + 24 * i, q);
    }
}

// A solid of m points and n faces; returns the place behind it.
pub fn put_solid(
    points: &[f64],
    m: usize,
    places: &[u64],
    counts: &[u64],
    n: usize,
    out: &mut [u8],
    at: usize,
) -> usize
    requires { (3 * m ≤ length points.now) × Lent places.now counts.now n × (at + length (solid_answer (solid_in points.now m places.now counts.now n)) ≤ length out.old) }
    ensures value { result ≡ at + length (solid_answer (solid_in points.now m places.now counts.now n)) }
    ensures out_after { out.new ≡ sets out.old at (solid_answer (solid_in points.now m places.now counts.now n)) }
{
    words::put_count(out, at, m as u64);
    put_points(points, 0, m, out, at + 4);
    words::put_count(out, at + 4 + 24 * m, n as u64);
    put_faces(places, counts, n, out, at + 8 + 24 * m)
}

pub fn put_plane(out: &mut [u8], at: usize, w: Plane)
    requires { at + 96 ≤ length out.old }
    ensures { out.new ≡ sets out.old at (plane_bytes w) }
{
    let f = w.frame;
    let o = f.origin;
    let x = f.x;
    let y = f.y;
    let z = f.z;
    put_point(out, at, o);
    put_point(out, at + 24, x);
    put_point(out, at + 48, y);
    put_point(out, at + 72, z);
}

// The facet of n corners that stands in a room at a place.
fn put_facet(s: &[f64], from: usize, n: usize, out: &mut [u8], at: usize)
    requires { (from + plane_size + 3 * n ≤ length s.now) × (at + 100 + 24 * n ≤ length out.old) }
    ensures { out.new ≡ sets out.old at (facet_answer (face_at s.now from n)) }
{
    let w = room::get_plane(s, from);
    put_plane(out, at, w);
    words::put_count(out, at + 96, n as u64);
    put_points(s, from + room::PLANE, n, out, at + 100);
}

// The facets that stand in a room from a place on; returns the place behind them.
fn put_facets(
    s: &[f64],
    from: usize,
    sizes: &[u64],
    j: usize,
    faces: usize,
    out: &mut [u8],
    at: usize,
) -> usize
    requires { (j + faces ≤ length sizes.now) × Within (counts_at sizes.now j faces) from (length s.now) × (at + length (row facet_answer (cell_at s.now from (counts_at sizes.now j faces))) ≤ length out.old) }
    ensures value { result ≡ at + length (row facet_answer (cell_at s.now from (counts_at sizes.now j faces))) }
    ensures out_after { out.new ≡ sets out.old at (row facet_answer (cell_at s.now from (counts_at sizes.now j faces))) }
{
    let mut o = from;
    let mut p = at;
    for i in 0..faces {
        let n = sizes[j + i] as usize;
        put_facet(s, o, n, out, p);
        o += room::PLANE + 3 * n;
        p += 100 + 24 * n;
    }
    p
}

fn put_sense(out: &mut [u8], at: usize, sense: u8)
    requires { at < length out.old }
    ensures { out.new ≡ set out.old at sense }
{
    out[at] = sense;
}

// A shell: its sense, 1 for outward and 0 for inward, and its facets; returns the place behind it.
pub fn put_shell(
    sense: u8,
    s: &[f64],
    from: usize,
    sizes: &[u64],
    j: usize,
    faces: usize,
    out: &mut [u8],
    at: usize,
) -> usize
    requires { (j + faces ≤ length sizes.now) × Within (counts_at sizes.now j faces) from (length s.now) × (at + length (shell_answer sense (cell_at s.now from (counts_at sizes.now j faces))) ≤ length out.old) }
    ensures value { result ≡ at + length (shell_answer sense (cell_at s.now from (counts_at sizes.now j faces))) }
    ensures out_after { out.new ≡ sets out.old at (shell_answer sense (cell_at s.now from (counts_at sizes.now j faces))) }
{
    put_sense(out, at, sense);
    words::put_count(out, at + 1, faces as u64);
    put_facets(s, from, sizes, j, faces, out, at + 5)
}
