#![tactic(auto)]

// The fused bodies of a list of cells, for the tests that call fusing's steps from outside: loose faces reach refusals that whole jobs
// hardly reach. 64 says that the slices hold no list of cells, or that the sizes or the answer are too short; the answer is then as it was.
ghost use Rattle.std.specs.Prelude.{◌≡◌, ◌*◌, ◌≤◌, length};
ghost use Rattle.refusal.specs.Outcome.{then};
ghost use Rattle.stack.specs.Stacks.{list_at, Holds};
ghost use Rattle.ended.specs.Ends.{ended_of, written};
ghost use Rattle.fused.specs.Bodies.{fuse_cells};
ghost use Rattle.fused_bytes.specs.Bytes.{answer_of};
ghost use Rattle.fuse_leaf.specs.Fusing.{fuse_lent, Told};

use ended::Ended;
use space::Precision;
use stack::Stack;

const NONE: u64 = 64;

// The most corners that the call's own memory is enough for.
const ROOM: usize = 4608;

fn fuse_here(
    t: Precision,
    limit: usize,
    list: Stack,
    d: &[f64],
    counts: &[u64],
    sizes: &mut [u64],
    answer: &mut [u8],
) -> Ended
    requires { Holds limit list d.now counts.now sizes.old × (limit ≤ 4608) × (limit ≤ length sizes.old) × (64 * limit ≤ length answer.old) }
    ensures value { result ≡ ended_of (answer_of (then (list_at list d.now counts.now sizes.old) (fuse_cells t limit))) }
    ensures answer_after { answer.new ≡ written (answer_of (then (list_at list d.now counts.now sizes.old) (fuse_cells t limit))) answer.old }
{
    let mut points = [0.0; 13824];
    let mut corners = [0u64; 4608];
    let mut cycles = [0u64; 4608];
    let mut lengths = [0u64; 4608];
    let mut starts = [0u64; 4609];
    let mut owners = [0u64; 4608];
    let mut cells = [0u64; 4608];
    let mut cuts = [0u64; 4609];
    let mut runs = [0u64; 13824];
    let mut k = [0u64; 9216];
    let mut s = [0u64; 4609];
    let mut ord = [0u64; 4608];
    let mut ends = [0u64; 4608];
    let mut marks = [0u64; 4609];
    let mut out = [0u64; 4608];
    let mut many = [0u64; 4608];
    let mut shells = [0u64; 4608];
    fused_bytes::fused_bytes(
        t,
        limit,
        list,
        d,
        counts,
        sizes,
        &mut points,
        &mut corners,
        &mut cycles,
        &mut lengths,
        &mut starts,
        &mut owners,
        &mut cells,
        &mut cuts,
        &mut runs,
        &mut k,
        &mut s,
        &mut ord,
        &mut ends,
        &mut marks,
        &mut out,
        &mut many,
        &mut shells,
        answer,
    )
}

// The number, and the bytes of the bodies at the front of the answer. The first `cells` cells stand in `d`, `counts` and `sizes`, which
// serves as work memory once they are read.
#[unsafe(no_mangle)]
pub extern "C" fn leaf_fuse(
    linear: f64,
    local: f64,
    limit: usize,
    cells: usize,
    d: &[f64],
    counts: &[u64],
    sizes: &mut [u64],
    answer: &mut [u8],
) -> u64
    ensures { Told (fuse_lent (record { linear = linear; local = local }) limit cells d.now counts.now sizes.old (length answer.old)) answer.old answer.new result }
{
    if ROOM < limit {
        return NONE;
    }
    if answer.len() / 64 < limit {
        return NONE;
    }
    if sizes.len() < limit {
        return NONE;
    }
    let t = Precision { linear, local };
    let list = list_lent::list_in(limit, cells, d, counts, sizes);
    let e = fuse_here(t, limit, list, d, counts, sizes, answer);
    let v = e.verdict;
    lent::number_by(v)
}
