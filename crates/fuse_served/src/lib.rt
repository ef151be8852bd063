#![tactic(auto)]

// The call that fuses but for the clearing of its work memory: the test of what is lent, the job read, its solids in rooms, their pieces,
// then the bytes of the bodies. All slices but the answer are work memory; those that the pieces need no more serve the fusing.
ghost use Rattle.std.specs.Prelude.{◌≤◌, length};
ghost use Rattle.refusal.specs.Outcome.{then};
ghost use Rattle.stack.specs.Stacks.{Listed, Places};
ghost use Rattle.cells.specs.Rests.{Place};
ghost use Rattle.intake.specs.Layouts.{Stood};
ghost use Rattle.jobs.specs.Jobs.{both_of};
ghost use Rattle.fuse_served.specs.Entry.{pieces_both, FuseEnded};

use ended::Ended;
use job::Layout;
use refusal::Refusal;
use stack::Stack;

// The pieces of the job's operation, listed in `dst`, `counts` and `sizes`; the second solid and the planes have memory of the call's own.
fn cut_job(
    job: &[u8],
    y: Layout,
    limit: usize,
    rest: &mut [f64],
    spare: &mut [f64],
    dst: &mut [f64],
    held: &mut [u64],
    slots: &mut [u64],
    counts: &mut [u64],
    sizes: &mut [u64],
    seats: &mut [u64],
) -> Stack
    requires stood { Stood job.now y.first × Stood job.now y.second }
    requires in_bounds { (1984 ≤ length rest.old) × Place limit rest.old held.old × Places limit dst.old counts.old sizes.old × Places limit spare.old slots.old seats.old }
    ensures { Listed limit (then (both_of job.now y) (pieces_both limit y)) result dst.new counts.new sizes.new }
{
    let mut src = [0.0; 1984];
    let mut corners = [0u64; 64];
    let mut planes = [0.0; 3328];
    let o = y.operation;
    let t = y.precision;
    let taken = jobs::take_both(job, y, rest, held, &mut src, &mut corners);
    match taken {
        Err(r) => Stack {
            verdict: Err(r),
            cells: 0,
            faces: 0,
            corners: 0,
        },
        Ok(pair) => pieces::pieces(
            o,
            t,
            limit,
            pair.first,
            &src,
            0,
            &corners,
            0,
            pair.second,
            &mut planes,
            rest,
            held,
            dst,
            counts,
            sizes,
            spare,
            slots,
            seats,
        ),
    }
}

// The whole call: how it ended, the answer standing at the front of `answer`.
pub fn served(
    job: &[u8],
    limit: usize,
    rest: &mut [f64],
    spare: &mut [f64],
    dst: &mut [f64],
    held: &mut [u64],
    slots: &mut [u64],
    counts: &mut [u64],
    sizes: &mut [u64],
    seats: &mut [u64],
    lengths: &mut [u64],
    owners: &mut [u64],
    cells: &mut [u64],
    cuts: &mut [u64],
    runs: &mut [u64],
    keys: &mut [u64],
    begins: &mut [u64],
    ord: &mut [u64],
    ends: &mut [u64],
    marks: &mut [u64],
    out: &mut [u64],
    many: &mut [u64],
    shells: &mut [u64],
    answer: &mut [u8],
) -> Ended
    ensures { FuseEnded job.now limit rest.old spare.old dst.old held.old slots.old counts.old sizes.old seats.old lengths.old owners.old cells.old cuts.old runs.old keys.old begins.old ord.old ends.old marks.old out.old many.old shells.old answer.old result answer.new }
{
    let enough = fuse_lent::is_lent(
        limit,
        answer.len(),
        rest.len(),
        spare.len(),
        dst.len(),
        held.len(),
        slots.len(),
        counts.len(),
        sizes.len(),
        seats.len(),
        lengths.len(),
        owners.len(),
        cells.len(),
        cuts.len(),
        runs.len(),
        keys.len(),
        begins.len(),
        ord.len(),
        ends.len(),
        marks.len(),
        out.len(),
        many.len(),
        shells.len(),
    );
    let read = jobs::open_job(job, enough);
    match read {
        Ok(y) => {
            let t = y.precision;
            let list = cut_job(
                job, y, limit, rest, spare, dst, held, slots, counts, sizes, seats,
            );
            fused_bytes::fused_bytes(
                t,
                limit,
                list,
                dst,
                counts,
                sizes,
                rest,
                held,
                slots,
                lengths,
                seats,
                owners,
                cells,
                cuts,
                runs,
                keys,
                begins,
                ord,
                &mut ends[..limit],
                marks,
                out,
                many,
                shells,
                answer,
            )
        }
        Err(r) => ended::stop(r),
    }
}
