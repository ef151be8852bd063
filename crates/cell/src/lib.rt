#![tactic(auto)]

// A cell that grows face by face in a room, behind what two lent slices hold already: the floats of its faces from `at` on,
// their numbers of corners from `k` on. A refusal writes nothing more; what was added before it stays behind the places.
ghost use Rattle.std.specs.Prelude.{◌≡◌, ◌+◌, ◌*◌, ◌≤◌, ◌<◌, length, ltb, Ok};
ghost use Rattle.polygon.specs.Polygons.{corners_of};
ghost use Rattle.room.specs.Rooms.{plane_size, face_at, cell_at, counts_at};
ghost use Rattle.cell.specs.Cells.{is_full, add_face, keep_face, left_cell, Filled, Stored, Fits, Turned, Ready};

use polygon::Polygon;
use refusal::Refusal;
use space::Plane;

// How many faces and corners the cell has.
#[derive(Clone, Copy)]
pub struct Kept {
    pub faces: usize,
    pub corners: usize,
}

fn is_full(limit: usize, faces: usize, held: usize, n: usize) -> bool
    requires { held + n < 18446744073709551616 }
    ensures { result ≡ is_full limit faces held n }
{
    (128 <= faces) | (limit < held + n)
}

// One face more, where the room has a place for it; a refusal stays.
pub fn add_face(
    limit: usize,
    dst: &mut [f64],
    at: usize,
    counts: &mut [u64],
    k: usize,
    s: Result<Kept, Refusal>,
    w: Plane,
    p: Polygon,
) -> Result<Kept, Refusal>
    requires fits { Fits limit s dst.old at counts.old k }
    requires n_bound { (p.n ≤ 128) × (p.n ≡ length (corners_of p)) }
    ensures { Turned limit at k (λ c. add_face limit c (record { plane = w; points = corners_of p })) s result dst.old counts.old dst.new counts.new }
{
    let kept = s?;
    let faces = kept.faces;
    let held = kept.corners;
    let n = p.n;
    if is_full(limit, faces, held, n) {
        return Err(refusal::refuse(12));
    }
    room::put_face(
        dst,
        counts,
        at + room::PLANE * faces + 3 * held,
        k + faces,
        w,
        p,
    );
    Ok(Kept {
        faces: faces + 1,
        corners: held + n,
    })
}

// The same, but a face with fewer than three corners is dropped.
pub fn keep_face(
    limit: usize,
    dst: &mut [f64],
    at: usize,
    counts: &mut [u64],
    k: usize,
    s: Result<Kept, Refusal>,
    w: Plane,
    p: Polygon,
) -> Result<Kept, Refusal>
    requires fits { Fits limit s dst.old at counts.old k }
    requires n_bound { (p.n ≤ 128) × (p.n ≡ length (corners_of p)) }
    ensures { Turned limit at k (λ c. keep_face (ltb (length (corners_of p)) 3) limit c (record { plane = w; points = corners_of p })) s result dst.old counts.old dst.new counts.new }
{
    if p.n < 3 {
        return s;
    }
    add_face(limit, dst, at, counts, k, s, w, p)
}

// One face more, of n corners, as it stands in another room from `o` on: no record is made of it.
fn copy_face(
    limit: usize,
    src: &[f64],
    o: usize,
    n: usize,
    dst: &mut [f64],
    at: usize,
    counts: &mut [u64],
    k: usize,
    s: Kept,
) -> Result<Kept, Refusal>
    requires fits { Fits limit (Ok s) dst.old at counts.old k }
    requires n_bound { (n ≤ 128) × (o + plane_size + 3 * n ≤ length src.now) }
    ensures { Turned limit at k (λ c. add_face limit c (face_at src.now o n)) (Ok s) result dst.old counts.old dst.new counts.new }
{
    let faces = s.faces;
    let old = s.corners;
    if is_full(limit, faces, old, n) {
        return Err(refusal::refuse(12));
    }
    room::copy_face(
        src,
        o,
        n,
        dst,
        counts,
        at + room::PLANE * faces + 3 * old,
        k + faces,
    );
    Ok(Kept {
        faces: faces + 1,
        corners: old + n,
    })
}

// A whole cell of another room: its floats stand from `from` on, its faces' numbers of corners from `j` on.
pub fn left_cell(
    limit: usize,
    src: &[f64],
    from: usize,
    sizes: &[u64],
    j: usize,
    faces: usize,
    dst: &mut [f64],
    at: usize,
    counts: &mut [u64],
    k: usize,
) -> Result<Kept, Refusal>
    requires { Ready limit src.now from sizes.now j faces dst.old at counts.old k }
    ensures stored { Stored dst.old at counts.old k (left_cell limit (cell_at src.now from (counts_at sizes.now j faces))) result dst.new counts.new }
    ensures filled { Filled limit (cell_at src.now from (counts_at sizes.now j faces)) dst.old at counts.old k dst.new counts.new }
{
    let mut s = Kept {
        faces: 0,
        corners: 0,
    };
    let mut o = from;
    for i in 0..faces {
        let n = sizes[j + i] as usize;
        s = copy_face(limit, src, o, n, dst, at, counts, k, s)?;
        o = o + room::PLANE + 3 * n;
    }
    Ok(s)
}
