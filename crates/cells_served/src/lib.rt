#![tactic(auto)]

// The cell Boolean of a job, once the lengths of the slices are tested: the bytes read whole, the room and the tolerances, the solids, the
// cells, and the bytes of the answer. All slices but the answer are work memory; those that the cut needs no more serve the check.
ghost use Rattle.std.specs.Prelude.{◌≡◌, ◌≤◌, length};
ghost use Rattle.refusal.specs.Outcome.{then};
ghost use Rattle.stack.specs.Stacks.{Listed, Places};
ghost use Rattle.cells.specs.Rests.{Place};
ghost use Rattle.ended.specs.Ends.{ended_of, written};
ghost use Rattle.intake.specs.Layouts.{Stood};
ghost use Rattle.jobs.specs.Jobs.{both_of};
ghost use Rattle.cells_served.specs.Entry.{cut_both, lends, cells_entry};

use ended::Ended;
use job::Layout;
use refusal::Refusal;
use stack::Stack;

// The solids of the job are taken, the first into `rest`, and the cells of its operation listed in `dst`, `counts` and `sizes`. The second
// solid and the memory of a cut are the call's own.
fn cut_job(
    job: &[u8],
    y: Layout,
    limit: usize,
    rest: &mut [f64],
    spare: &mut [f64],
    dst: &mut [f64],
    held: &mut [u64],
    slots: &mut [u64],
    counts: &mut [u64],
    sizes: &mut [u64],
) -> Stack
    requires stood { Stood job.now y.first × Stood job.now y.second × (1984 ≤ length rest.old) }
    requires place { Place limit rest.old held.old × Place limit spare.old slots.old × Places limit dst.old counts.old sizes.old }
    ensures { Listed limit (then (both_of job.now y) (cut_both limit y)) result dst.new counts.new sizes.new }
{
    let mut src = [0.0; 1984];
    let mut corners = [0u64; 64];
    let o = y.operation;
    let t = y.precision;
    let taken = jobs::take_both(job, y, rest, held, &mut src, &mut corners);
    match taken {
        Err(r) => Stack {
            verdict: Err(r),
            cells: 0,
            faces: 0,
            corners: 0,
        },
        Ok(pair) => cells::boolean_cells(
            o,
            t,
            limit,
            pair.first,
            &src,
            0,
            &corners,
            0,
            pair.second,
            rest,
            held,
            spare,
            slots,
            dst,
            counts,
            sizes,
        ),
    }
}

// At most 2^37 bytes: 32 for each corner of a room of at most 2^32.
pub fn served(
    job: &[u8],
    limit: usize,
    enough: bool,
    rest: &mut [f64],
    spare: &mut [f64],
    dst: &mut [f64],
    held: &mut [u64],
    slots: &mut [u64],
    counts: &mut [u64],
    sizes: &mut [u64],
    order: &mut [u64],
    chain: &mut [u64],
    head: &mut [u64],
    seen: &mut [u64],
    work: &mut [u64],
    nodes: &mut [u64],
    cuts: &mut [u64],
    answer: &mut [u8],
) -> Ended
    requires { enough ≡ lends limit (length answer.old) (length rest.old) (length spare.old) (length dst.old) (length held.old) (length slots.old) (length counts.old) (length sizes.old) (length order.old) (length chain.old) (length head.old) (length seen.old) (length work.old) (length nodes.old) (length cuts.old) }
    ensures value { (result ≡ ended_of (cells_entry enough limit job.now)) × (result.bytes ≤ 137438953472) }
    ensures answer_after { answer.new ≡ written (cells_entry enough limit job.now) answer.old }
{
    let read = jobs::open_job(job, enough);
    match read {
        Ok(y) => {
            let t = y.precision;
            let s = cut_job(job, y, limit, rest, spare, dst, held, slots, counts, sizes);
            let k = s.cells;
            let v = finish::finish_cells(
                t, limit, s, dst, counts, sizes, rest, held, slots, order, head, chain, seen, work,
                nodes, cuts,
            );
            cell_answer::put_solids(limit, v, k, rest, held, counts, sizes, slots, answer)
        }
        Err(r) => ended::stop(r),
    }
}
