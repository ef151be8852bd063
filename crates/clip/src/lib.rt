#![tactic(auto)]

// The part of a convex cell below a plane.
ghost use Rattle.std.specs.Prelude.{◌≡◌, ◌+◌, ◌*◌, ◌≤◌, length};
ghost use Rattle.room.specs.Rooms.{plane_size, face_at, cell_at, counts_at};
ghost use Rattle.cell.specs.Cells.{Stored};
ghost use Rattle.clip.specs.Cuts.{signs_of, cut_face, closed, cut_faces, cut_cell, clip_by, clip};
ghost use Rattle.clip.specs.Clips.{Space, Few, Cutter, Closer, Gone, Given, Hulls, answered, Clips};

pub use cell::Kept;
use edge::Seen;
use refusal::Refusal;
use space::{Plane, Precision};

// A cut under way: how many faces and corners the cell has, and how many points the cap.
#[derive(Clone, Copy)]
pub struct Going {
    pub faces: usize,
    pub corners: usize,
    pub caps: usize,
}

// The sides of all corners of a cell.
fn sign_cell(
    t: Precision,
    plane: Plane,
    src: &[f64],
    from: usize,
    sizes: &[u64],
    j: usize,
    faces: usize,
) -> Result<Seen, Refusal>
    requires { Given src.now from sizes.now j faces }
    ensures { result ≡ signs_of t plane (cell_at src.now from (counts_at sizes.now j faces)) }
{
    let mut s = edge::unseen();
    let mut o = from;
    for i in 0..faces {
        let n = sizes[j + i] as usize;
        s = ring::sign_face(t, plane, src, o + room::PLANE, n, Ok(s))?;
        o = o + room::PLANE + 3 * n;
    }
    Ok(s)
}

// One face more of the cell that is cut.
fn cut_face(
    t: Precision,
    limit: usize,
    plane: Plane,
    src: &[f64],
    o: usize,
    n: usize,
    face: &mut [f64],
    cap: &mut [f64],
    dst: &mut [f64],
    at: usize,
    counts: &mut [u64],
    k: usize,
    s: Going,
) -> Result<Going, Refusal>
    requires { (o + plane_size + 3 * n ≤ length src.now) × Space limit face.old cap.old dst.old at counts.old k × Few limit s }
    ensures { Cutter limit at k (λ x. cut_face t limit plane x (face_at src.now o n)) s result cap.old dst.old counts.old cap.new dst.new counts.new }
{
    let ring = ring::cut_ring(t, plane, src, o + room::PLANE, n, face, cap, s.caps)?;
    let w = room::get_plane(src, o);
    let q = polygon::unique(face, 0, ring.corners, t)?;
    let old = Kept {
        faces: s.faces,
        corners: s.corners,
    };
    let r = cell::keep_face(limit, dst, at, counts, k, Ok(old), w, q)?;
    Ok(Going {
        faces: r.faces,
        corners: r.corners,
        caps: ring.caps,
    })
}

// All faces of the cell.
fn cut_faces(
    t: Precision,
    limit: usize,
    plane: Plane,
    src: &[f64],
    from: usize,
    sizes: &[u64],
    j: usize,
    faces: usize,
    face: &mut [f64],
    cap: &mut [f64],
    dst: &mut [f64],
    at: usize,
    counts: &mut [u64],
    k: usize,
) -> Result<Going, Refusal>
    requires { Given src.now from sizes.now j faces × Space limit face.old cap.old dst.old at counts.old k }
    ensures { Gone limit dst.old at counts.old k (cut_faces t limit plane (cell_at src.now from (counts_at sizes.now j faces))) result cap.new dst.new counts.new }
{
    let mut s = Going {
        faces: 0,
        corners: 0,
        caps: 0,
    };
    let mut o = from;
    for i in 0..faces {
        let n = sizes[j + i] as usize;
        s = cut_face(t, limit, plane, src, o, n, face, cap, dst, at, counts, k, s)?;
        o = o + room::PLANE + 3 * n;
    }
    Ok(s)
}

// The cap closes the cell.
fn close(
    t: Precision,
    limit: usize,
    plane: Plane,
    s: Going,
    cap: &mut [f64],
    flat: &mut [f64],
    order: &mut [u64],
    chain: &mut [u64],
    dst: &mut [f64],
    at: usize,
    counts: &mut [u64],
    k: usize,
) -> Result<Kept, Refusal>
    requires { (3072 ≤ length cap.old) × Hulls flat.old order.old chain.old × (at + 1664 + 3 * limit ≤ length dst.old) × (k + 128 ≤ length counts.old) × Few limit s }
    ensures { Closer at k (closed t limit plane) s result cap.old dst.old counts.old dst.new counts.new }
{
    let q = hull::hull(cap, s.caps, plane, t, flat, order, chain)?;
    let old = Kept {
        faces: s.faces,
        corners: s.corners,
    };
    cell::add_face(limit, dst, at, counts, k, Ok(old), plane, q)
}

#[tactic(auto, unfolding(crate::specs::Clips::answered))]
fn answer(r: Result<Kept, Refusal>) -> Result<Option<Kept>, Refusal>
    ensures { result ≡ answered r }
{
    Ok(Some(r?))
}

fn cut_cell(
    t: Precision,
    limit: usize,
    plane: Plane,
    src: &[f64],
    from: usize,
    sizes: &[u64],
    j: usize,
    faces: usize,
    dst: &mut [f64],
    at: usize,
    counts: &mut [u64],
    k: usize,
    face: &mut [f64],
    cap: &mut [f64],
    flat: &mut [f64],
    order: &mut [u64],
    chain: &mut [u64],
) -> Result<Kept, Refusal>
    requires { Given src.now from sizes.now j faces × Space limit face.old cap.old dst.old at counts.old k × Hulls flat.old order.old chain.old }
    ensures { Stored dst.old at counts.old k (cut_cell t limit plane (cell_at src.now from (counts_at sizes.now j faces))) result dst.new counts.new }
{
    let s = cut_faces(
        t, limit, plane, src, from, sizes, j, faces, face, cap, dst, at, counts, k,
    )?;
    close(
        t, limit, plane, s, cap, flat, order, chain, dst, at, counts, k,
    )
}

// By whether corners lie on the negative and on the positive side.
fn clip_by(
    negative: bool,
    positive: bool,
    t: Precision,
    limit: usize,
    plane: Plane,
    src: &[f64],
    from: usize,
    sizes: &[u64],
    j: usize,
    faces: usize,
    dst: &mut [f64],
    at: usize,
    counts: &mut [u64],
    k: usize,
    face: &mut [f64],
    cap: &mut [f64],
    flat: &mut [f64],
    order: &mut [u64],
    chain: &mut [u64],
) -> Result<Option<Kept>, Refusal>
    requires { Given src.now from sizes.now j faces × Space limit face.old cap.old dst.old at counts.old k × Hulls flat.old order.old chain.old }
    ensures { Clips (clip_by t limit plane (cell_at src.now from (counts_at sizes.now j faces)) negative positive) result dst.old at counts.old k dst.new counts.new }
{
    if negative {
        if positive {
            let r = cut_cell(
                t, limit, plane, src, from, sizes, j, faces, dst, at, counts, k, face, cap, flat,
                order, chain,
            );
            return answer(r);
        }
        let r = cell::left_cell(limit, src, from, sizes, j, faces, dst, at, counts, k);
        return answer(r);
    }
    Ok(None)
}

// The cell that stands in `src` from `from` on, its faces' numbers of corners in `sizes` from `j` on; its part below the plane
// is put into `dst` and `counts` behind `at` and `k`, with at most `limit` corners. The other slices are work memory: what they
// hold after the call is free, and so is what a refusal leaves behind `at` and `k`.
pub fn clip(
    t: Precision,
    limit: usize,
    plane: Plane,
    src: &[f64],
    from: usize,
    sizes: &[u64],
    j: usize,
    faces: usize,
    dst: &mut [f64],
    at: usize,
    counts: &mut [u64],
    k: usize,
    face: &mut [f64],
    cap: &mut [f64],
    flat: &mut [f64],
    order: &mut [u64],
    chain: &mut [u64],
) -> Result<Option<Kept>, Refusal>
    requires { Given src.now from sizes.now j faces × Space limit face.old cap.old dst.old at counts.old k × Hulls flat.old order.old chain.old }
    ensures { Clips (clip t limit plane (cell_at src.now from (counts_at sizes.now j faces))) result dst.old at counts.old k dst.new counts.new }
{
    let s = sign_cell(t, plane, src, from, sizes, j, faces)?;
    clip_by(
        s.negative, s.positive, t, limit, plane, src, from, sizes, j, faces, dst, at, counts, k,
        face, cap, flat, order, chain,
    )
}
