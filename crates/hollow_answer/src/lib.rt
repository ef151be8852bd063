#![tactic(auto)]

// The answer of a hollow solid, from the checked cell in its slices to the bytes.
ghost use Rattle.std.specs.Prelude.{◌≡◌, ◌+◌, ◌*◌, ◌≤◌, length, Ok};
ghost use Rattle.room.specs.Rooms.{cell_at, counts_at};
ghost use Rattle.ended.specs.Ends.{fitted, Handed};
ghost use Rattle.hollow.specs.Stored.{Walls};
ghost use Rattle.hollow_answer.specs.Calls.{hollow_answer, hollow_at, wall_call, shell_call, hollow_call, Pair, Yard};
ghost use Rattle.hollow_answer.specs.Stages.{Cavity};

use ended::Ended;
use refusal::Refusal;
use space::Precision;

// The body of two shells of n facets each, one behind the other at the front of `s` and `counts`.
fn put_body(s: &[f64], counts: &[u64], n: usize, answer: &mut [u8]) -> Ended
    requires { Pair s.now counts.now n }
    ensures { Handed (fitted (length answer.old) (Ok (hollow_answer (hollow_at s.now counts.now n)))) answer.old answer.new result }
{
    let outer = hollow::corners_of(counts, 0, n, s, 0);
    let at = room::PLANE * n + 3 * outer;
    let inner = hollow::corners_of(counts, n, n, s, at);
    if answer.len() < 14 + 200 * n + 24 * (outer + inner) {
        return ended::stop(refusal::refuse(12));
    }
    words::put_count(answer, 0, 2);
    let middle = answer::put_shell(1, s, 0, counts, 0, n, answer, 4);
    let end = answer::put_shell(0, s, at, counts, n, n, answer, middle);
    ended::answer(end)
}

// The moved cell strictly inside the outer one, and the built one behind it, reversed.
fn wall_answer(
    t: Precision,
    limit: usize,
    moved: &[f64],
    sizes: &[u64],
    src: &[f64],
    n: usize,
    s: &mut [f64],
    counts: &mut [u64],
    answer: &mut [u8],
) -> Ended
    requires { Walls moved.now 0 sizes.now 0 n src.now 0 sizes.now 0 n s.old 0 counts.old 0 n }
    ensures { Handed (fitted (length answer.old) (wall_call t limit (cell_at s.old 0 (counts_at counts.old 0 n)) (cell_at moved.now 0 (counts_at sizes.now 0 n)) (cell_at src.now 0 (counts_at sizes.now 0 n)))) answer.old answer.new result }
{
    let v = hollow::hollow_in(
        t, limit, moved, 0, sizes, 0, n, src, 0, sizes, 0, n, s, 0, counts, 0, n,
    );
    match v {
        Err(r) => ended::stop(r),
        Ok(()) => put_body(s, counts, n, answer),
    }
}

// The moved cell of n faces at the front of `src` is built; its faces with their own frames go to `faces`.
fn shell_answer(
    t: Precision,
    limit: usize,
    src: &[f64],
    sizes: &[u64],
    n: usize,
    s: &mut [f64],
    counts: &mut [u64],
    points: &mut [f64],
    places: &mut [u64],
    faces: &mut [f64],
    ends: &mut [u64],
    head: &mut [u64],
    next: &mut [u64],
    seen: &mut [u64],
    work: &mut [u64],
    nodes: &mut [u64],
    cuts: &mut [u64],
    answer: &mut [u8],
) -> Ended
    requires { Cavity src.now sizes.now n s.old counts.old points.old places.old faces.old ends.old head.old next.old seen.old work.old nodes.old cuts.old }
    ensures { Handed (fitted (length answer.old) (shell_call t limit (cell_at s.old 0 (counts_at counts.old 0 n)) (cell_at src.now 0 (counts_at sizes.now 0 n)))) answer.old answer.new result }
{
    let found = built::build(
        t, src, 0, sizes, n, points, places, ends, head, next, seen, work, nodes, cuts,
    );
    match found {
        Err(r) => ended::stop(r),
        Ok(m) => {
            solid_check::put_faces(t, points, m, places, sizes, n, faces);
            wall_answer(t, limit, src, sizes, faces, n, s, counts, answer)
        }
    }
}

// The cell of n faces at the front of `s` and `counts` with a wall of thickness w, which is above linear. After a refusal the answer is as
// it came; the slices before it are work memory, whose content after the call is free.
pub fn hollow_answer(
    t: Precision,
    limit: usize,
    w: f64,
    s: &mut [f64],
    counts: &mut [u64],
    n: usize,
    by: &mut [f64],
    points: &mut [f64],
    places: &mut [u64],
    moved: &mut [f64],
    dst: &mut [f64],
    sizes: &mut [u64],
    ends: &mut [u64],
    head: &mut [u64],
    next: &mut [u64],
    seen: &mut [u64],
    work: &mut [u64],
    nodes: &mut [u64],
    cuts: &mut [u64],
    answer: &mut [u8],
) -> Ended
    requires { Yard s.old counts.old n by.old points.old places.old moved.old dst.old sizes.old ends.old head.old next.old seen.old work.old nodes.old cuts.old }
    ensures { Handed (fitted (length answer.old) (hollow_call t limit w (cell_at s.old 0 (counts_at counts.old 0 n)))) answer.old answer.new result }
{
    let v = offset::offset(
        t, s, 0, counts, 0, n, -w, by, points, places, moved, dst, 0, sizes, 0,
    );
    match v {
        Err(r) => ended::stop(r),
        Ok(()) => shell_answer(
            t, limit, dst, sizes, n, s, counts, points, places, moved, ends, head, next, seen,
            work, nodes, cuts, answer,
        ),
    }
}
