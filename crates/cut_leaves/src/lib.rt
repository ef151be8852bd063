#![tactic(auto)]

// `unique`, `hull` and `clip` for the tests that call them from outside. 64 says that a slice was too short for the call, which
// then leaves everything as it was.
ghost use Rattle.std.specs.Prelude.{◌≡◌, ◌+◌, ◌*◌, ◌≤◌, length, leb};
ghost use Rattle.std.specs.Result.{IfOk};
ghost use Rattle.room.specs.Rooms.{cell_at, counts_at};
ghost use Rattle.clip.specs.Cuts.{clip};
ghost use Rattle.clip.specs.Clips.{number_of_clipped};
ghost use Rattle.lent.specs.Lent.{plane_by};
ghost use Rattle.refusal.specs.Outcome.{number_of};
ghost use Rattle.cut_leaves.specs.Lending.{Told, corners_put, count_put, unique_fits, unique_lent, hull_fits, hull_lent, within_fits, cell_fits, work_fits, place_fits, clipped_told, clip_fits, Cut};

use clip::Kept;
use polygon::Polygon;
use refusal::Refusal;
use space::Precision;

const SHORT: u64 = 64;

// The corners, and how many there are, or the number of the refusal.
#[tactic(auto, unfolding(crate::specs::Lending::corners_put, crate::specs::Lending::count_put, refusal::specs::Outcome::number_of))]
fn put_made(out: &mut [f64], told: &mut [u64], m: Result<Polygon, Refusal>) -> u64
    requires { (384 ≤ length out.old) × (1 ≤ length told.old) × IfOk m (λ p. p.n ≤ 128) }
    ensures value { result ≡ number_of m }
    ensures out_after { out.new ≡ corners_put out.old m }
    ensures told_after { told.new ≡ count_put told.old m }
{
    match m {
        Err(e) => e.number,
        Ok(p) => {
            told[0] = p.n as u64;
            room::put_points(out, 0, p);
            0
        }
    }
}

#[tactic(auto, unfolding(crate::specs::Lending::unique_fits))]
fn unique_fits(points: usize, out: usize, told: usize) -> bool
    ensures { result ≡ unique_fits points out told }
{
    (points / 3 <= 128) & ((384 <= out) & (1 <= told))
}

#[unsafe(no_mangle)]
pub extern "C" fn leaf_unique(points: &[f64], local: f64, out: &mut [f64], told: &mut [u64]) -> u64
    ensures { Told (unique_lent (record { linear = local; local = local }) points.now (length out.old) (length told.old)) result out.old told.old out.new told.new }
{
    let fits = unique_fits(points.len(), out.len(), told.len());
    if !fits {
        return SHORT;
    }
    let t = Precision {
        linear: local,
        local,
    };
    put_made(out, told, polygon::unique(points, 0, points.len() / 3, t))
}

#[tactic(auto, unfolding(crate::specs::Lending::hull_fits))]
fn hull_fits(
    points: usize,
    cap: usize,
    flat: usize,
    order: usize,
    chain: usize,
    out: usize,
    told: usize,
) -> bool
    ensures { result ≡ hull_fits points cap flat order chain out told }
{
    let work = (points <= cap / 3) & (points <= flat / 2);
    let more = (points <= order) & (points <= chain / 2);
    work & (more & ((384 <= out) & (1 <= told)))
}

// The hull of the first `points` points of the cap. The cap, flat, order and chain are work memory.
#[unsafe(no_mangle)]
pub extern "C" fn leaf_hull(
    cap: &mut [f64],
    points: usize,
    plane: &[f64],
    local: f64,
    flat: &mut [f64],
    order: &mut [u64],
    chain: &mut [u64],
    out: &mut [f64],
    told: &mut [u64],
) -> u64
    ensures { Told (hull_lent (record { linear = local; local = local }) (plane_by plane.now) cap.old points (length flat.old) (length order.old) (length chain.old) (length out.old) (length told.old)) result out.old told.old out.new told.new }
{
    let fits = hull_fits(
        points,
        cap.len(),
        flat.len(),
        order.len(),
        chain.len(),
        out.len(),
        told.len(),
    );
    if !fits {
        return SHORT;
    }
    let t = Precision {
        linear: local,
        local,
    };
    let w = lent::plane_by(plane);
    let m = hull::hull(cap, points, w, t, flat, order, chain);
    put_made(out, told, m)
}

// Whether faces with the listed numbers of corners lie within m floats.
fn within_fits(m: usize, from: usize, sizes: &[u64], j: usize, faces: usize) -> bool
    requires { (from ≤ m) × (j + faces ≤ length sizes.now) }
    ensures { result ≡ within_fits (counts_at sizes.now j faces) from m }
{
    let mut o = from;
    for i in 0..faces {
        let n = sizes[j + i];
        if 128 < n {
            return false;
        }
        let size = room::PLANE + 3 * (n as usize);
        if m - o < size {
            return false;
        }
        o += size;
    }
    true
}

fn cell_fits(m: usize, from: usize, sizes: &[u64], j: usize, faces: usize) -> bool
    ensures { result ≡ cell_fits m from sizes.now j faces }
{
    let listed = sizes.len();
    if listed < j {
        return false;
    }
    if listed - j < faces {
        return false;
    }
    if m < from {
        return false;
    }
    within_fits(m, from, sizes, j, faces)
}

#[tactic(auto, unfolding(crate::specs::Lending::work_fits))]
fn work_fits(face: usize, cap: usize, flat: usize, order: usize, chain: usize) -> bool
    ensures { result ≡ work_fits face cap flat order chain }
{
    let lists = (2048 <= flat) & (1024 <= order);
    ((384 <= face) & (3072 <= cap)) & (lists & (2048 <= chain))
}

// Whether a cell of at most `limit` corners fits behind `at`.
fn floats_fit(limit: usize, d: usize, at: usize) -> bool
    ensures { result ≡ leb (at + 1664 + 3 * limit) d }
{
    if d < at {
        return false;
    }
    let rest = d - at;
    if rest < 1664 {
        return false;
    }
    if (rest - 1664) / 3 < limit {
        return false;
    }
    true
}

fn counts_fit(n: usize, k: usize) -> bool
    ensures { result ≡ leb (k + 128) n }
{
    if n < k {
        return false;
    }
    if n - k < 128 {
        return false;
    }
    true
}

#[tactic(auto, unfolding(crate::specs::Lending::place_fits))]
fn place_fits(limit: usize, d: usize, at: usize, n: usize, k: usize, told: usize) -> bool
    ensures { result ≡ place_fits limit d at n k told }
{
    floats_fit(limit, d, at) & (counts_fit(n, k) & (2 <= told))
}

#[tactic(auto, unfolding(clip::specs::Clips::number_of_clipped, crate::specs::Lending::clipped_told))]
fn put_clipped(told: &mut [u64], r: Result<Option<Kept>, Refusal>) -> u64
    requires { 2 ≤ length told.old }
    ensures value { result ≡ number_of_clipped r }
    ensures told_after { told.new ≡ clipped_told told.old r }
{
    match r {
        Ok(part) => match part {
            None => {
                told[0] = 0;
                told[1] = 0;
                0
            }
            Some(kept) => {
                told[0] = kept.faces as u64;
                told[1] = kept.corners as u64;
                0
            }
        },
        Err(e) => e.number,
    }
}

// The cell's floats stand in `src` from `from` on, its faces' numbers of corners in `sizes` from `j` on; `told` gets the part's
// numbers of faces and corners, none where nothing is left. The slices between `counts` and `told` are work memory.
#[unsafe(no_mangle)]
pub extern "C" fn leaf_clip(
    plane: &[f64],
    local: f64,
    limit: usize,
    src: &[f64],
    from: usize,
    sizes: &[u64],
    j: usize,
    faces: usize,
    dst: &mut [f64],
    at: usize,
    counts: &mut [u64],
    k: usize,
    face: &mut [f64],
    cap: &mut [f64],
    flat: &mut [f64],
    order: &mut [u64],
    chain: &mut [u64],
    told: &mut [u64],
) -> u64
    ensures { Cut (clip_fits limit (length src.now) from sizes.now j faces (length dst.old) at (length counts.old) k (length face.old) (length cap.old) (length flat.old) (length order.old) (length chain.old) (length told.old)) (clip (record { linear = local; local = local }) limit (plane_by plane.now) (cell_at src.now from (counts_at sizes.now j faces))) result dst.old at counts.old k told.old dst.new counts.new told.new }
{
    let work = work_fits(face.len(), cap.len(), flat.len(), order.len(), chain.len());
    let place = place_fits(limit, dst.len(), at, counts.len(), k, told.len());
    let fits = cell_fits(src.len(), from, sizes, j, faces) & (work & place);
    if !fits {
        return SHORT;
    }
    let t = Precision {
        linear: local,
        local,
    };
    let w = lent::plane_by(plane);
    let r = clip::clip(
        t, limit, w, src, from, sizes, j, faces, dst, at, counts, k, face, cap, flat, order, chain,
    );
    put_clipped(told, r)
}
