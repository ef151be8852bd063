#![tactic(auto)]

// The check of a cell's bytes, for tests that call it from outside.
ghost use Rattle.std.specs.Prelude.{◌≡◌, ◌≤◌, length, eqb, Ok};
ghost use Rattle.refusal.specs.Outcome.{number_of};
ghost use Rattle.job.specs.Read.{cell_layout, solid_at};
ghost use Rattle.solid_check.specs.Check.{check};
ghost use Rattle.solid_leaves.specs.Cells.{roomy, cell_number};
ghost use Rattle.solid_leaves.specs.Unpacked.{Roomy};

use job::CellLayout;

fn is_roomy(
    points: usize,
    counts: usize,
    places: usize,
    ends: usize,
    head: usize,
    next: usize,
    seen: usize,
    work: usize,
    nodes: usize,
    cuts: usize,
) -> bool
    ensures { result ≡ roomy points counts places ends head next seen work nodes cuts }
{
    (((((((3930 <= points) & (32768 <= counts)) & (10923 <= places)) & (places <= ends / 2))
        & (places <= next / 2))
        & (places <= nodes))
        & (32768 <= head))
        & (32768 <= seen)
        & (((32768 <= work) & (32768 <= nodes)) & (32769 <= cuts))
}

// The check of a cell that stands in the bytes.
fn check_laid(
    job: &[u8],
    y: CellLayout,
    given: bool,
    points: &mut [f64],
    counts: &mut [u64],
    places: &mut [u64],
    ends: &mut [u64],
    head: &mut [u64],
    next: &mut [u64],
    seen: &mut [u64],
    work: &mut [u64],
    nodes: &mut [u64],
    cuts: &mut [u64],
) -> u64
    requires { (cell_layout job.now ≡ Ok y) × Roomy (length points.old) (length counts.old) (length places.old) (length ends.old) (length head.old) (length next.old) (length seen.old) (length work.old) (length nodes.old) (length cuts.old) }
    ensures { result ≡ number_of (check given y.precision (solid_at job.now y.solid)) }
{
    let t = y.precision;
    let a = y.solid;
    let m = a.points;
    let n = a.faces;
    pack::unpack_points(job, a.start, m, points);
    pack::unpack_faces(job, a.middle, counts, places);
    let v = solid_check::check(
        given, t, points, m, places, counts, n, ends, head, next, seen, work, nodes, cuts,
    );
    lent::number_by(v)
}

// 01's number for a cell's bytes, with counts and turns where `given` is 1; the other slices are work memory, 12 where one is too short.
#[unsafe(no_mangle)]
pub extern "C" fn leaf_check_cell(
    job: &[u8],
    given: u64,
    points: &mut [f64],
    counts: &mut [u64],
    places: &mut [u64],
    ends: &mut [u64],
    head: &mut [u64],
    next: &mut [u64],
    seen: &mut [u64],
    work: &mut [u64],
    nodes: &mut [u64],
    cuts: &mut [u64],
) -> u64
    ensures { result ≡ cell_number (roomy (length points.old) (length counts.old) (length places.old) (length ends.old) (length head.old) (length next.old) (length seen.old) (length work.old) (length nodes.old) (length cuts.old)) (eqb given 1) job.now }
{
    if !is_roomy(
        points.len(),
        counts.len(),
        places.len(),
        ends.len(),
        head.len(),
        next.len(),
        seen.len(),
        work.len(),
        nodes.len(),
        cuts.len(),
    ) {
        return 12;
    }
    match job::read_cell(job) {
        Ok(y) => check_laid(
            job,
            y,
            given == 1,
            points,
            counts,
            places,
            ends,
            head,
            next,
            seen,
            work,
            nodes,
            cuts,
        ),
        Err(r) => r.number,
    }
}
