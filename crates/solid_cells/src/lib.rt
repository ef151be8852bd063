#![tactic(auto)]

// The call of the cell Boolean from outside.
ghost use Rattle.std.specs.Prelude.{◌≡◌, ◌≤◌, length};
ghost use Rattle.ended.specs.Ends.{ended_of, written};
ghost use Rattle.cells_served.specs.Entry.{lends, cells_entry};
ghost use Rattle.solid_cells.specs.Cleared.{Cleared};

use ended::Ended;

// Enough is lent for a room of so many corners.
fn is_lent(
    room: usize,
    answer: usize,
    rest: usize,
    spare: usize,
    dst: usize,
    held: usize,
    slots: usize,
    counts: usize,
    sizes: usize,
    order: usize,
    chain: usize,
    head: usize,
    seen: usize,
    work: usize,
    nodes: usize,
    cuts: usize,
) -> bool
    ensures { result ≡ lends room answer rest spare dst held slots counts sizes order chain head seen work nodes cuts }
{
    if 4294967296 < room {
        return false;
    }
    let floats = ((3 * room + 1984 <= rest) & (3 * room + 1664 <= spare))
        & (11 * room + 1664 <= dst);
    let list = ((room + 128 <= held) & (room + 128 <= slots))
        & ((room + 128 <= counts) & (room < sizes));
    let cut = (2 * room + 1024 <= order) & (2 * room + 2048 <= chain);
    let faces = ((room <= head) & (room <= seen))
        & (((room <= work) & (room <= nodes)) & (room < cuts));
    (room <= answer / 64) & ((floats & list) & (cut & faces))
}

// The cells of the Boolean operation of the job that the bytes hold: a refusal, or an answer of at most 2^37 bytes, which stands at the front
// of `answer`. `corners` is the room; all slices but the answer are work memory, and zero after the call.
pub fn cells(
    job: &[u8],
    corners: u64,
    rest: &mut [f64],
    spare: &mut [f64],
    dst: &mut [f64],
    held: &mut [u64],
    slots: &mut [u64],
    counts: &mut [u64],
    sizes: &mut [u64],
    order: &mut [u64],
    chain: &mut [u64],
    head: &mut [u64],
    seen: &mut [u64],
    work: &mut [u64],
    nodes: &mut [u64],
    cuts: &mut [u64],
    answer: &mut [u8],
) -> Ended
    ensures value { (result ≡ ended_of (cells_entry (lends corners (length answer.old) (length rest.old) (length spare.old) (length dst.old) (length held.old) (length slots.old) (length counts.old) (length sizes.old) (length order.old) (length chain.old) (length head.old) (length seen.old) (length work.old) (length nodes.old) (length cuts.old)) corners job.now)) × (result.bytes ≤ 137438953472) }
    ensures answer_after { answer.new ≡ written (cells_entry (lends corners (length answer.old) (length rest.old) (length spare.old) (length dst.old) (length held.old) (length slots.old) (length counts.old) (length sizes.old) (length order.old) (length chain.old) (length head.old) (length seen.old) (length work.old) (length nodes.old) (length cuts.old)) corners job.now) answer.old }
    ensures cleared { Cleared rest.old rest.new spare.old spare.new dst.old dst.new held.old held.new slots.old slots.new counts.old counts.new sizes.old sizes.new order.old order.new chain.old chain.new head.old head.new seen.old seen.new work.old work.new nodes.old nodes.new cuts.old cuts.new }
{
    let limit = corners as usize;
    let enough = is_lent(
        limit,
        answer.len(),
        rest.len(),
        spare.len(),
        dst.len(),
        held.len(),
        slots.len(),
        counts.len(),
        sizes.len(),
        order.len(),
        chain.len(),
        head.len(),
        seen.len(),
        work.len(),
        nodes.len(),
        cuts.len(),
    );
    let ended = cells_served::served(
        job, limit, enough, rest, spare, dst, held, slots, counts, sizes, order, chain, head, seen,
        work, nodes, cuts, answer,
    );
    clear::zero3(rest, spare, dst);
    clear::zero_counts4(held, slots, counts, sizes);
    clear::zero_counts4(order, chain, head, seen);
    clear::zero_counts3(work, nodes, cuts);
    ended
}
