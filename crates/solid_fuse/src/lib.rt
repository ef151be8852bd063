#![tactic(auto)]

// The call that fuses, from outside. Its work memory is zeroed in two steps, since a function that lends much more than some 35 slices is
// beyond the prover.
ghost use Rattle.fuse_served.specs.Entry.{FuseEnded};
ghost use Rattle.solid_fuse.specs.Cleared.{Half, Cleared};

use ended::Ended;

// The call, and then the slices of the pieces and the first of fusing are zeroed.
fn half_cleared(
    job: &[u8],
    limit: usize,
    rest: &mut [f64],
    spare: &mut [f64],
    dst: &mut [f64],
    held: &mut [u64],
    slots: &mut [u64],
    counts: &mut [u64],
    sizes: &mut [u64],
    seats: &mut [u64],
    lengths: &mut [u64],
    owners: &mut [u64],
    cells: &mut [u64],
    cuts: &mut [u64],
    runs: &mut [u64],
    keys: &mut [u64],
    begins: &mut [u64],
    ord: &mut [u64],
    ends: &mut [u64],
    marks: &mut [u64],
    out: &mut [u64],
    many: &mut [u64],
    shells: &mut [u64],
    answer: &mut [u8],
) -> Ended
    ensures fuse_ended { FuseEnded job.now limit rest.old spare.old dst.old held.old slots.old counts.old sizes.old seats.old lengths.old owners.old cells.old cuts.old runs.old keys.old begins.old ord.old ends.old marks.old out.old many.old shells.old answer.old result answer.new }
    ensures half { Half rest.old rest.new spare.old spare.new dst.old dst.new held.old held.new slots.old slots.new counts.old counts.new sizes.old sizes.new seats.old seats.new lengths.old lengths.new owners.old owners.new cells.old cells.new }
{
    let ended = fuse_served::served(
        job, limit, rest, spare, dst, held, slots, counts, sizes, seats, lengths, owners, cells,
        cuts, runs, keys, begins, ord, ends, marks, out, many, shells, answer,
    );
    clear::zero3(rest, spare, dst);
    clear::zero_counts4(held, slots, counts, sizes);
    clear::zero_counts4(seats, lengths, owners, cells);
    ended
}

// The fused bodies of the Boolean operation of the job that the bytes hold: the refusal, or how many bytes the answer has, which stands at
// the front of `answer`. `corners` is the room; all slices but the answer are work memory, and zero after the call.
pub fn fuse(
    job: &[u8],
    corners: u64,
    rest: &mut [f64],
    spare: &mut [f64],
    dst: &mut [f64],
    held: &mut [u64],
    slots: &mut [u64],
    counts: &mut [u64],
    sizes: &mut [u64],
    seats: &mut [u64],
    lengths: &mut [u64],
    owners: &mut [u64],
    cells: &mut [u64],
    cuts: &mut [u64],
    runs: &mut [u64],
    keys: &mut [u64],
    begins: &mut [u64],
    ord: &mut [u64],
    ends: &mut [u64],
    marks: &mut [u64],
    out: &mut [u64],
    many: &mut [u64],
    shells: &mut [u64],
    answer: &mut [u8],
) -> Ended
    ensures fuse_ended { FuseEnded job.now corners rest.old spare.old dst.old held.old slots.old counts.old sizes.old seats.old lengths.old owners.old cells.old cuts.old runs.old keys.old begins.old ord.old ends.old marks.old out.old many.old shells.old answer.old result answer.new }
    ensures cleared { Cleared rest.old rest.new spare.old spare.new dst.old dst.new held.old held.new slots.old slots.new counts.old counts.new sizes.old sizes.new seats.old seats.new lengths.old lengths.new owners.old owners.new cells.old cells.new cuts.old cuts.new runs.old runs.new keys.old keys.new begins.old begins.new ord.old ord.new ends.old ends.new marks.old marks.new out.old out.new many.old many.new shells.old shells.new }
{
    let ended = half_cleared(
        job,
        corners as usize,
        rest,
        spare,
        dst,
        held,
        slots,
        counts,
        sizes,
        seats,
        lengths,
        owners,
        cells,
        cuts,
        runs,
        keys,
        begins,
        ord,
        ends,
        marks,
        out,
        many,
        shells,
        answer,
    );
    clear::zero_counts4(cuts, runs, keys, begins);
    clear::zero_counts3(ord, ends, marks);
    clear::zero_counts3(out, many, shells);
    ended
}
