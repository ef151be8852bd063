#![tactic(auto)]

// A solid out of a job's bytes into lent slices, and records written into bytes.
// Each contract is one equation with a definition of `specs/Flat.antt` for each slice.
ghost use Rattle.std.specs.Prelude.{◌≡◌, map, ◌+◌, ◌*◌, ◌≤◌, ◌<◌, length, drop, set};
ghost use Rattle.std.proofs.lemmas.List.Edits.{sets};
ghost use Rattle.job.specs.Bytes.{operation_byte};
ghost use Rattle.job.specs.Records.{faces_of};
ghost use Rattle.pack.specs.Flat.{coordinates, flat, joined, points_from, corners_from, faces_from, precision_record, point_record, corner_record, operation_record};

use job::Operation;
use space::{Point3, Precision};

fn put_coordinates(out: &mut [f64], at: usize, p: Point3)
    requires { at + 3 ≤ length out.old }
    ensures { out.new ≡ sets out.old at (coordinates p) }
{
    out[at] = p.x;
    out[at + 1] = p.y;
    out[at + 2] = p.z;
}

// n points that begin at a place, three numbers a point.
#[tactic(auto, using(crate::proofs::Turns::point_start, crate::proofs::Turns::point_turn, crate::proofs::Turns::point_end))]
pub fn unpack_points(job: &[u8], start: usize, n: usize, out: &mut [f64])
    requires { 3 * n ≤ length out.old }
    ensures { out.new ≡ sets out.old 0 (flat (points_from job.now start n)) }
{
    for i in 0..n {
        put_coordinates(out, 3 * i, job::point_at(job, start, i));
    }
}

// The indices of n corners that begin at a place, stored from k on.
#[tactic(auto, using(crate::proofs::Turns::index_start, crate::proofs::Turns::index_end))]
fn unpack_corners(job: &[u8], at: usize, n: usize, out: &mut [u64], k: usize)
    requires { (at + 3 * n ≤ length job.now) × (k + n ≤ length out.old) }
    ensures { out.new ≡ sets out.old k (corners_from job.now at n) }
{
    for j in 0..n {
        out[k + j] = words::index_at(job, at + 3 * j + 1);
    }
}

// The faces that stand from a place on: how many corners each has, and the indices of all.
pub fn unpack_faces(job: &[u8], middle: usize, counts: &mut [u64], indices: &mut [u64])
    requires { ((faces_of (drop middle job.now)).faces ≤ length counts.old) × ((faces_of (drop middle job.now)).corners ≤ length indices.old) }
    ensures counts_after { counts.new ≡ sets counts.old 0 (map length (faces_from job.now middle)) }
    ensures indices_after { indices.new ≡ sets indices.old 0 (joined (faces_from job.now middle)) }
{
    let mut at = middle;
    let mut f = 0;
    let mut k = 0;
    // How many faces there are, only reading them says, and at jumps over the corners of each.
    while job::stands(job, at, 3, 0) {
        let n = job::run(job, at + 1, 4, 2);
        counts[f] = n as u64;
        unpack_corners(job, at + 1, n, indices, k);
        at += 1 + 3 * n;
        f += 1;
        k += n;
    }
}

// ---- records written; each takes the place where it begins

pub fn put_precision(out: &mut [u8], at: usize, p: Precision)
    requires { at + 17 ≤ length out.old }
    ensures { out.new ≡ sets out.old at (precision_record p) }
{
    out[at] = 1;
    words::put_float(out, at + 1, p.linear);
    words::put_float(out, at + 9, p.local);
}

pub fn put_point(out: &mut [u8], at: usize, p: Point3)
    requires { at + 25 ≤ length out.old }
    ensures { out.new ≡ sets out.old at (point_record p) }
{
    out[at] = 2;
    words::put_float(out, at + 1, p.x);
    words::put_float(out, at + 9, p.y);
    words::put_float(out, at + 17, p.z);
}

pub fn put_face(out: &mut [u8], at: usize)
    requires { at < length out.old }
    ensures { out.new ≡ set out.old at 3 }
{
    out[at] = 3;
}

pub fn put_corner(out: &mut [u8], at: usize, i: u64)
    requires { at + 3 ≤ length out.old }
    ensures { out.new ≡ sets out.old at (corner_record i) }
{
    out[at] = 4;
    words::put_index(out, at + 1, i);
}

pub fn put_end(out: &mut [u8], at: usize)
    requires { at < length out.old }
    ensures { out.new ≡ set out.old at 5 }
{
    out[at] = 5;
}

#[tactic(auto, unfolding(job::specs::Bytes::operation_byte))]
fn operation_byte(o: Operation) -> u8
    ensures { result ≡ operation_byte o }
{
    match o {
        Operation::Intersection => 1,
        Operation::Difference => 2,
        Operation::Union => 3,
    }
}

pub fn put_operation(out: &mut [u8], at: usize, o: Operation)
    requires { at + 2 ≤ length out.old }
    ensures { out.new ≡ sets out.old at (operation_record o) }
{
    out[at] = 6;
    out[at + 1] = operation_byte(o);
}
