#![tactic(auto)]

// Faces in lent slices. A slice of floats holds, for each face, the 12 floats of its frame, its mark, and then 3 for each corner;
// the faces' numbers of corners stand in a slice of their own.
ghost use Rattle.std.specs.Prelude.{◌≡◌, ◌+◌, ◌*◌, ◌≤◌, ◌<◌, length, set, replicate};
ghost use Rattle.std.proofs.lemmas.List.Edits.{sets};
ghost use Rattle.std.specs.Float.{binary64};
ghost use Rattle.std.specs.Float.Ieee.{of_bits};
ghost use Rattle.polygon.specs.Polygons.{corners_of};
ghost use Rattle.polygon.specs.Memory.{floats_of, points_at};
ghost use Rattle.room.specs.Rooms.{plane_size, frame_floats, frame_at, plane_floats, plane_at, face_floats, face_at};

use polygon::Polygon;
use space::{Frame, Plane};

// How many numbers a plane takes.
pub const PLANE: usize = 13;

pub fn put_points(s: &mut [f64], at: usize, p: Polygon)
    requires { (p.n ≤ 128) × (at + 3 * p.n ≤ length s.old) }
    ensures { s.new ≡ sets s.old at (floats_of (corners_of p)) }
{
    for i in 0..p.n {
        polygon::put_point(s, at + 3 * i, p.at[i]);
    }
}

pub fn put_frame(s: &mut [f64], at: usize, f: Frame)
    requires { at + 12 ≤ length s.old }
    ensures { s.new ≡ sets s.old at (frame_floats f) }
{
    let o = f.origin;
    let x = f.x;
    let y = f.y;
    let z = f.z;
    polygon::put_point(s, at, o);
    polygon::put_point(s, at + 3, x);
    polygon::put_point(s, at + 6, y);
    polygon::put_point(s, at + 9, z);
}

pub fn get_frame(s: &[f64], at: usize) -> Frame
    requires { at + 12 ≤ length s.now }
    ensures { result ≡ frame_at s.now at }
{
    let origin = polygon::get_point(s, at);
    let x = polygon::get_point(s, at + 3);
    let y = polygon::get_point(s, at + 6);
    let z = polygon::get_point(s, at + 9);
    Frame { origin, x, y, z }
}

pub fn put_plane(s: &mut [f64], at: usize, w: Plane)
    requires { at + plane_size ≤ length s.old }
    ensures { s.new ≡ sets s.old at (plane_floats w) }
{
    put_frame(s, at, w.frame);
    s[at + 12] = w.mark;
}

pub fn get_plane(s: &[f64], at: usize) -> Plane
    requires { at + plane_size ≤ length s.now }
    ensures { result ≡ plane_at s.now at }
{
    let frame = get_frame(s, at);
    let mark = s[at + 12];
    Plane { frame, mark }
}

// A face is stored: its plane and corners from a place on, and how many corners it has.
pub fn put_face(s: &mut [f64], counts: &mut [u64], at: usize, k: usize, w: Plane, p: Polygon)
    requires { (p.n ≤ 128) × (at + plane_size + 3 * p.n ≤ length s.old) × (k < length counts.old) }
    ensures s_after { s.new ≡ sets s.old at (face_floats (record { plane = w; points = corners_of p })) }
    ensures counts_after { counts.new ≡ set counts.old k p.n }
{
    let n = p.n;
    put_plane(s, at, w);
    put_points(s, at + PLANE, p);
    counts[k] = n as u64;
}

// The n corners that stand in `src` from `from` on.
fn copy_points(src: &[f64], from: usize, n: usize, s: &mut [f64], at: usize)
    requires { (from + 3 * n ≤ length src.now) × (at + 3 * n ≤ length s.old) }
    ensures { s.new ≡ sets s.old at (floats_of (points_at src.now from n)) }
{
    for i in 0..n {
        let q = polygon::get_point(src, from + 3 * i);
        polygon::put_point(s, at + 3 * i, q);
    }
}

// A face of m corners that stands in `src` from `from` on is stored in the same way.
pub fn copy_face(
    src: &[f64],
    from: usize,
    m: usize,
    s: &mut [f64],
    counts: &mut [u64],
    at: usize,
    k: usize,
)
    requires { (from + plane_size + 3 * m ≤ length src.now) × (at + plane_size + 3 * m ≤ length s.old) × (k < length counts.old) }
    ensures s_after { s.new ≡ sets s.old at (face_floats (face_at src.now from m)) }
    ensures counts_after { counts.new ≡ set counts.old k m }
{
    let w = get_plane(src, from);
    put_plane(s, at, w);
    copy_points(src, from + PLANE, m, s, at + PLANE);
    counts[k] = m as u64;
}

pub fn zero(s: &mut [f64])
    ensures { s.new ≡ replicate (length s.old) (of_bits binary64 0) }
{
    s.fill(0.0);
}

pub fn zero_counts(s: &mut [u64])
    ensures { s.new ≡ replicate (length s.old) 0 }
{
    s.fill(0);
}
