#![tactic(auto)]

// The answer of an offset, from the checked cell in its slices to the bytes.
ghost use Rattle.std.specs.Prelude.{◌≡◌, ◌*◌, ◌≤◌, length};
ghost use Rattle.room.specs.Rooms.{cell_at, counts_at};
ghost use Rattle.indexed.specs.Stored.{flat, Fits};
ghost use Rattle.solids.specs.Frames.{faces_at};
ghost use Rattle.built.specs.Built.{Bench};
ghost use Rattle.writer.specs.Writing.{solid_in, Lent};
ghost use Rattle.ended.specs.Ends.{fitted, Handed};
ghost use Rattle.offset_answer.specs.Calls.{offset_answer, built_answer, offset_call, Shop};

use ended::Ended;
use refusal::Refusal;
use space::Precision;

// The solid of m points and n faces with k corners in all.
fn put_answer(
    limit: usize,
    points: &[f64],
    m: usize,
    places: &[u64],
    counts: &[u64],
    n: usize,
    k: usize,
    answer: &mut [u8],
) -> Ended
    requires { (3 * m ≤ length points.now) × Lent places.now counts.now n × (k ≤ length places.now) × (k ≡ length (flat (faces_at places.now 0 (counts_at counts.now 0 n)))) }
    ensures { Handed (fitted (length answer.old) (offset_answer limit (solid_in points.now m places.now counts.now n))) answer.old answer.new result }
{
    if limit < k {
        return ended::stop(refusal::refuse(12));
    }
    if answer.len() < 8 + 24 * m + 4 * n + 4 * k {
        return ended::stop(refusal::refuse(12));
    }
    let end = answer::put_solid(points, m, places, counts, n, answer, 0);
    ended::answer(end)
}

// The cell of n faces at the front of `src`, built.
fn built_answer(
    t: Precision,
    limit: usize,
    src: &[f64],
    counts: &[u64],
    n: usize,
    points: &mut [f64],
    places: &mut [u64],
    ends: &mut [u64],
    head: &mut [u64],
    next: &mut [u64],
    seen: &mut [u64],
    work: &mut [u64],
    nodes: &mut [u64],
    cuts: &mut [u64],
    answer: &mut [u8],
) -> Ended
    requires { Fits src.now counts.now 0 0 n points.old places.old × Bench (length places.old) n ends.old head.old next.old seen.old work.old nodes.old cuts.old }
    ensures { Handed (fitted (length answer.old) (built_answer t limit (cell_at src.now 0 (counts_at counts.now 0 n)))) answer.old answer.new result }
{
    let found = built::build(
        t, src, 0, counts, n, points, places, ends, head, next, seen, work, nodes, cuts,
    );
    match found {
        Err(r) => ended::stop(r),
        Ok(m) => {
            let k = hollow::corners_of(counts, 0, n, src, 0);
            put_answer(limit, points, m, places, counts, n, k, answer)
        }
    }
}

// The cell of n faces at the front of `s` and `counts`, every face pushed by d. After a refusal the answer is as it came; the slices before
// it are work memory, whose content after the call is free.
pub fn offset_answer(
    t: Precision,
    limit: usize,
    d: f64,
    s: &[f64],
    counts: &[u64],
    n: usize,
    by: &mut [f64],
    points: &mut [f64],
    places: &mut [u64],
    moved: &mut [f64],
    dst: &mut [f64],
    sizes: &mut [u64],
    ends: &mut [u64],
    head: &mut [u64],
    next: &mut [u64],
    seen: &mut [u64],
    work: &mut [u64],
    nodes: &mut [u64],
    cuts: &mut [u64],
    answer: &mut [u8],
) -> Ended
    requires { Shop s.now counts.now n by.old points.old places.old moved.old dst.old sizes.old ends.old head.old next.old seen.old work.old nodes.old cuts.old }
    ensures { Handed (fitted (length answer.old) (offset_call t limit d (cell_at s.now 0 (counts_at counts.now 0 n)))) answer.old answer.new result }
{
    let v = offset::offset(
        t, s, 0, counts, 0, n, d, by, points, places, moved, dst, 0, sizes, 0,
    );
    match v {
        Err(r) => ended::stop(r),
        Ok(()) => built_answer(
            t, limit, dst, sizes, n, points, places, ends, head, next, seen, work, nodes, cuts,
            answer,
        ),
    }
}
