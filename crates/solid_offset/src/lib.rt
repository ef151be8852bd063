#![tactic(auto)]

// The calls of an offset and of a hollow from outside.
ghost use Rattle.std.specs.Prelude.{◌≡◌, ◌≤◌, length};
ghost use Rattle.room.specs.Rooms.{cell_at, counts_at};
ghost use Rattle.intake.specs.Layouts.{Stood};
ghost use Rattle.offset_answer.specs.Calls.{offset_call};
ghost use Rattle.hollow_answer.specs.Calls.{hollow_call};
ghost use Rattle.ended.specs.Ends.{fitted, told_of, written};
ghost use Rattle.solid_offset.specs.Entries.{lent, offset_laid, offset_entry, hollow_laid, hollow_entry, Cleared, Given, Rooms, Ample};
ghost use Rattle.solid_offset.specs.Short.{Brief};

use ended::Ended;
use job::CellLayout;
use refusal::Refusal;
use space::Precision;

// The offset of a checked cell of n faces; its small work memory is the call's own.
fn offset_here(
    t: Precision,
    limit: usize,
    d: f64,
    s: &[f64],
    counts: &[u64],
    n: usize,
    dst: &mut [f64],
    sizes: &mut [u64],
    answer: &mut [u8],
) -> Ended
    requires { Given s.now counts.now n × (1984 ≤ length dst.old) × (64 ≤ length sizes.old) }
    ensures { Brief (fitted (length answer.old) (offset_call t limit d (cell_at s.now 0 (counts_at counts.now 0 n)))) answer.old answer.new result }
{
    let mut by = [0.0; 64];
    let mut points = [0.0; 1152];
    let mut places = [0u64; 384];
    let mut moved = [0.0; 1152];
    let mut ends = [0u64; 768];
    let mut head = [0u64; 64];
    let mut next = [0u64; 768];
    let mut seen = [0u64; 64];
    let mut work = [0u64; 64];
    let mut nodes = [0u64; 384];
    let mut cuts = [0u64; 65];
    offset_answer::offset_answer(
        t,
        limit,
        d,
        s,
        counts,
        n,
        &mut by,
        &mut points,
        &mut places,
        &mut moved,
        dst,
        sizes,
        &mut ends,
        &mut head,
        &mut next,
        &mut seen,
        &mut work,
        &mut nodes,
        &mut cuts,
        answer,
    )
}

// The same of a hollow; the inner shell goes behind the cell.
fn hollow_here(
    t: Precision,
    limit: usize,
    w: f64,
    s: &mut [f64],
    counts: &mut [u64],
    n: usize,
    dst: &mut [f64],
    sizes: &mut [u64],
    answer: &mut [u8],
) -> Ended
    requires { Given s.old counts.old n × Rooms (length s.old) (length counts.old) (length dst.old) (length sizes.old) }
    ensures { Brief (fitted (length answer.old) (hollow_call t limit w (cell_at s.old 0 (counts_at counts.old 0 n)))) answer.old answer.new result }
{
    let mut by = [0.0; 64];
    let mut points = [0.0; 1152];
    let mut places = [0u64; 384];
    let mut moved = [0.0; 1984];
    let mut ends = [0u64; 768];
    let mut head = [0u64; 64];
    let mut next = [0u64; 768];
    let mut seen = [0u64; 64];
    let mut work = [0u64; 64];
    let mut nodes = [0u64; 384];
    let mut cuts = [0u64; 65];
    hollow_answer::hollow_answer(
        t,
        limit,
        w,
        s,
        counts,
        n,
        &mut by,
        &mut points,
        &mut places,
        &mut moved,
        dst,
        sizes,
        &mut ends,
        &mut head,
        &mut next,
        &mut seen,
        &mut work,
        &mut nodes,
        &mut cuts,
        answer,
    )
}

// The solid of the bytes, checked, and its offset.
fn offset_laid(
    cell: &[u8],
    y: CellLayout,
    limit: usize,
    d: f64,
    s: &mut [f64],
    counts: &mut [u64],
    dst: &mut [f64],
    sizes: &mut [u64],
    answer: &mut [u8],
) -> Ended
    requires { Stood cell.now y.solid × Rooms (length s.old) (length counts.old) (length dst.old) (length sizes.old) }
    ensures { Brief (fitted (length answer.old) (offset_laid cell.now limit d y)) answer.old answer.new result }
{
    let t = y.precision;
    let taken = intake::take_solid(t, cell, y.solid, s, counts);
    match taken {
        Err(r) => ended::stop(r),
        Ok(n) => offset_here(t, limit, d, s, counts, n, dst, sizes, answer),
    }
}

// The wall, the solid of the bytes, checked, and its hollow.
fn hollow_laid(
    cell: &[u8],
    y: CellLayout,
    limit: usize,
    w: f64,
    s: &mut [f64],
    counts: &mut [u64],
    dst: &mut [f64],
    sizes: &mut [u64],
    answer: &mut [u8],
) -> Ended
    requires { Stood cell.now y.solid × Rooms (length s.old) (length counts.old) (length dst.old) (length sizes.old) }
    ensures { Brief (fitted (length answer.old) (hollow_laid cell.now limit w y)) answer.old answer.new result }
{
    let t = y.precision;
    if !hollow::is_thick(t, w) {
        return ended::stop(refusal::refuse(28));
    }
    let taken = intake::take_solid(t, cell, y.solid, s, counts);
    match taken {
        Err(r) => ended::stop(r),
        Ok(n) => hollow_here(t, limit, w, s, counts, n, dst, sizes, answer),
    }
}

fn is_lent(room: usize, answer: usize, s: usize, counts: usize, dst: usize, sizes: usize) -> bool
    ensures { result ≡ lent room answer s counts dst sizes }
{
    (room <= answer / 64) & (((3968 <= s) & (128 <= counts)) & ((1984 <= dst) & (64 <= sizes)))
}

fn offset_served(
    cell: &[u8],
    limit: usize,
    d: f64,
    lends: bool,
    s: &mut [f64],
    counts: &mut [u64],
    dst: &mut [f64],
    sizes: &mut [u64],
    answer: &mut [u8],
) -> Ended
    requires { Ample lends (length s.old) (length counts.old) (length dst.old) (length sizes.old) }
    ensures { Brief (fitted (length answer.old) (offset_entry lends limit d cell.now)) answer.old answer.new result }
{
    let read = jobs::open_cell(cell, lends);
    match read {
        Err(r) => ended::stop(r),
        Ok(y) => offset_laid(cell, y, limit, d, s, counts, dst, sizes, answer),
    }
}

fn hollow_served(
    cell: &[u8],
    limit: usize,
    w: f64,
    lends: bool,
    s: &mut [f64],
    counts: &mut [u64],
    dst: &mut [f64],
    sizes: &mut [u64],
    answer: &mut [u8],
) -> Ended
    requires { Ample lends (length s.old) (length counts.old) (length dst.old) (length sizes.old) }
    ensures { Brief (fitted (length answer.old) (hollow_entry lends limit w cell.now)) answer.old answer.new result }
{
    let read = jobs::open_cell(cell, lends);
    match read {
        Err(r) => ended::stop(r),
        Ok(y) => hollow_laid(cell, y, limit, w, s, counts, dst, sizes, answer),
    }
}

// The offset of the cell that the bytes hold: the number of the refusal, or 256 times the bytes of the answer, which stands at the front of
// `answer`. `corners` is the room; the two rooms lent are zero after the call.
pub fn offset(
    cell: &[u8],
    distance: f64,
    corners: u64,
    s: &mut [f64],
    counts: &mut [u64],
    dst: &mut [f64],
    sizes: &mut [u64],
    answer: &mut [u8],
) -> u64
    ensures value { result ≡ told_of (fitted (length answer.old) (offset_entry (lent corners (length answer.old) (length s.old) (length counts.old) (length dst.old) (length sizes.old)) corners distance cell.now)) }
    ensures answer_after { answer.new ≡ written (fitted (length answer.old) (offset_entry (lent corners (length answer.old) (length s.old) (length counts.old) (length dst.old) (length sizes.old)) corners distance cell.now)) answer.old }
    ensures cleared { Cleared s.old counts.old dst.old sizes.old s.new counts.new dst.new sizes.new }
{
    let limit = corners as usize;
    let lends = is_lent(
        limit,
        answer.len(),
        s.len(),
        counts.len(),
        dst.len(),
        sizes.len(),
    );
    let e = offset_served(cell, limit, distance, lends, s, counts, dst, sizes, answer);
    room::zero(s);
    room::zero_counts(counts);
    room::zero(dst);
    room::zero_counts(sizes);
    let v = e.verdict;
    ended::told_by(v, e.bytes)
}

// The hollow solid likewise, with a wall of this thickness.
pub fn hollow(
    cell: &[u8],
    thickness: f64,
    corners: u64,
    s: &mut [f64],
    counts: &mut [u64],
    dst: &mut [f64],
    sizes: &mut [u64],
    answer: &mut [u8],
) -> u64
    ensures value { result ≡ told_of (fitted (length answer.old) (hollow_entry (lent corners (length answer.old) (length s.old) (length counts.old) (length dst.old) (length sizes.old)) corners thickness cell.now)) }
    ensures answer_after { answer.new ≡ written (fitted (length answer.old) (hollow_entry (lent corners (length answer.old) (length s.old) (length counts.old) (length dst.old) (length sizes.old)) corners thickness cell.now)) answer.old }
    ensures cleared { Cleared s.old counts.old dst.old sizes.old s.new counts.new dst.new sizes.new }
{
    let limit = corners as usize;
    let lends = is_lent(
        limit,
        answer.len(),
        s.len(),
        counts.len(),
        dst.len(),
        sizes.len(),
    );
    let e = hollow_served(cell, limit, thickness, lends, s, counts, dst, sizes, answer);
    room::zero(s);
    room::zero_counts(counts);
    room::zero(dst);
    room::zero_counts(sizes);
    let v = e.verdict;
    ended::told_by(v, e.bytes)
}
