#![tactic(auto)]

// A job written into bytes out of lent slices, record after record; `job` reads it again.
ghost use Rattle.std.specs.Prelude.{◌≡◌, [], map, ◌+◌, ◌*◌, ◌≤◌, length};
ghost use Rattle.std.proofs.lemmas.List.Edits.{sets};
ghost use Rattle.words.specs.Little.{digits};
ghost use Rattle.polygon.specs.Memory.{points_at};
ghost use Rattle.room.specs.Rooms.{counts_at};
ghost use Rattle.job.specs.Bytes.{records_to};
ghost use Rattle.job.specs.Written.{point_bytes};
ghost use Rattle.solids.specs.Frames.{faces_at};
ghost use Rattle.writer.specs.Writing.{face_record, faces_bytes, solid_bytes, written_job, Lent, solid_in};

use job::Operation;
use space::Precision;

// The records of m points.
#[tactic(auto, using(crate::specs::Rows::points_start, crate::specs::Laws::points_written))]
fn write_points(points: &[f64], m: usize, out: &mut [u8], at: usize)
    requires { (3 * m ≤ length points.now) × (at + 25 * m ≤ length out.old) }
    ensures { out.new ≡ sets out.old at (records_to 2 (map point_bytes (points_at points.now 0 m)) []) }
{
    for i in 0..m {
        let q = polygon::get_point(points, 3 * i);
        pack::put_point(out, at + 25 * i, q);
    }
}

// The records of n corners, whose places stand from k on.
#[tactic(auto, using(crate::specs::Rows::numbers_start, crate::specs::Laws::corners_written))]
fn write_corners(places: &[u64], k: usize, n: usize, out: &mut [u8], at: usize)
    requires { (k + n ≤ length places.now) × (at + 3 * n ≤ length out.old) }
    ensures { out.new ≡ sets out.old at (records_to 4 (map (digits 2) (counts_at places.now k n)) []) }
{
    for i in 0..n {
        let x = places[k + i];
        pack::put_corner(out, at + 3 * i, x);
    }
}

// A face opens, and its corners follow.
#[tactic(auto, using(crate::specs::Laws::face_stored))]
fn write_face(places: &[u64], k: usize, n: usize, out: &mut [u8], at: usize)
    requires { (k + n ≤ length places.now) × (at + 1 + 3 * n ≤ length out.old) }
    ensures { out.new ≡ sets out.old at (face_record (counts_at places.now k n)) }
{
    pack::put_face(out, at);
    write_corners(places, k, n, out, at + 1);
}

// All faces of a solid; returns the place behind them.
fn write_faces(places: &[u64], counts: &[u64], n: usize, out: &mut [u8], at: usize) -> usize
    requires { Lent places.now counts.now n × (at + length (faces_bytes (faces_at places.now 0 (counts_at counts.now 0 n))) ≤ length out.old) }
    ensures value { result ≡ at + length (faces_bytes (faces_at places.now 0 (counts_at counts.now 0 n))) }
    ensures out_after { out.new ≡ sets out.old at (faces_bytes (faces_at places.now 0 (counts_at counts.now 0 n))) }
{
    let mut k = 0;
    let mut o = at;
    for j in 0..n {
        let c = counts[j] as usize;
        write_face(places, k, c, out, o);
        k += c;
        o += 1 + 3 * c;
    }
    o
}

// The records of a solid of m points and n faces; returns the place behind them.
pub fn write_solid(
    points: &[f64],
    m: usize,
    places: &[u64],
    counts: &[u64],
    n: usize,
    out: &mut [u8],
    at: usize,
) -> usize
    requires { (3 * m ≤ length points.now) × Lent places.now counts.now n × (at + length (solid_bytes (solid_in points.now m places.now counts.now n)) ≤ length out.old) }
    ensures value { result ≡ at + length (solid_bytes (solid_in points.now m places.now counts.now n)) }
    ensures out_after { out.new ≡ sets out.old at (solid_bytes (solid_in points.now m places.now counts.now n)) }
{
    write_points(points, m, out, at);
    let end = write_faces(places, counts, n, out, at + 25 * m);
    pack::put_end(out, end);
    end + 1
}

// A whole job; returns how many bytes it has.
pub fn write_job(
    t: Precision,
    operation: Operation,
    points: &[f64],
    m: usize,
    places: &[u64],
    counts: &[u64],
    n: usize,
    points2: &[f64],
    m2: usize,
    places2: &[u64],
    counts2: &[u64],
    n2: usize,
    out: &mut [u8],
) -> usize
    requires m_in_bounds { (3 * m ≤ length points.now) × Lent places.now counts.now n × (3 * m2 ≤ length points2.now) × Lent places2.now counts2.now n2 }
    requires n2_in_bounds { length (written_job t operation (solid_in points.now m places.now counts.now n) (solid_in points2.now m2 places2.now counts2.now n2)) ≤ length out.old }
    ensures value { result ≡ length (written_job t operation (solid_in points.now m places.now counts.now n) (solid_in points2.now m2 places2.now counts2.now n2)) }
    ensures out_after { out.new ≡ sets out.old 0 (written_job t operation (solid_in points.now m places.now counts.now n) (solid_in points2.now m2 places2.now counts2.now n2)) }
{
    pack::put_precision(out, 0, t);
    let first = write_solid(points, m, places, counts, n, out, 17);
    let second = write_solid(points2, m2, places2, counts2, n2, out, first);
    pack::put_operation(out, second, operation);
    second + 2
}
