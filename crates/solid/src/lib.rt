#![tactic(auto)]

// The library as C and C++ call it (`include/solid.h`, which also sees to the floating-point environment that the machine code needs). No call
// has a `requires`; what each hands back is determined (`specs/Only`).
ghost use Rattle.std.specs.Prelude.{◌≡◌};
ghost use Rattle.solid.specs.Calls.{FuseDone, CellsDone, OffsetDone, HollowDone, MeshDone};

// The fused bodies of a job's operation: the number of the refusal, or 256 times the bytes of the answer, which stands at the front of
// `answer`. `corners` is the room; all slices but the answer are work memory, and zero after the call.
#[unsafe(no_mangle)]
pub extern "C" fn solid_fuse(
    job: &[u8],
    corners: u64,
    rest: &mut [f64],
    spare: &mut [f64],
    dst: &mut [f64],
    held: &mut [u64],
    slots: &mut [u64],
    counts: &mut [u64],
    sizes: &mut [u64],
    seats: &mut [u64],
    lengths: &mut [u64],
    owners: &mut [u64],
    cells: &mut [u64],
    cuts: &mut [u64],
    runs: &mut [u64],
    keys: &mut [u64],
    begins: &mut [u64],
    ord: &mut [u64],
    ends: &mut [u64],
    marks: &mut [u64],
    out: &mut [u64],
    many: &mut [u64],
    shells: &mut [u64],
    answer: &mut [u8],
) -> u64
    ensures { FuseDone job.now corners rest.old spare.old dst.old held.old slots.old counts.old sizes.old seats.old lengths.old owners.old cells.old cuts.old runs.old keys.old begins.old ord.old ends.old marks.old out.old many.old shells.old answer.old result rest.new spare.new dst.new held.new slots.new counts.new sizes.new seats.new lengths.new owners.new cells.new cuts.new runs.new keys.new begins.new ord.new ends.new marks.new out.new many.new shells.new answer.new }
{
    let fused = solid_fuse::fuse(
        job, corners, rest, spare, dst, held, slots, counts, sizes, seats, lengths, owners, cells,
        cuts, runs, keys, begins, ord, ends, marks, out, many, shells, answer,
    );
    let v = fused.verdict;
    ended::told_by(v, fused.bytes)
}

// The cells of a job's operation, in the same way.
#[unsafe(no_mangle)]
pub extern "C" fn solid_cells(
    job: &[u8],
    corners: u64,
    rest: &mut [f64],
    spare: &mut [f64],
    dst: &mut [f64],
    held: &mut [u64],
    slots: &mut [u64],
    counts: &mut [u64],
    sizes: &mut [u64],
    order: &mut [u64],
    chain: &mut [u64],
    head: &mut [u64],
    seen: &mut [u64],
    work: &mut [u64],
    nodes: &mut [u64],
    cuts: &mut [u64],
    answer: &mut [u8],
) -> u64
    ensures { CellsDone job.now corners rest.old spare.old dst.old held.old slots.old counts.old sizes.old order.old chain.old head.old seen.old work.old nodes.old cuts.old answer.old result rest.new spare.new dst.new held.new slots.new counts.new sizes.new order.new chain.new head.new seen.new work.new nodes.new cuts.new answer.new }
{
    let done = solid_cells::cells(
        job, corners, rest, spare, dst, held, slots, counts, sizes, order, chain, head, seen, work,
        nodes, cuts, answer,
    );
    let v = done.verdict;
    ended::told_by(v, done.bytes)
}

// The offset of a cell by a distance, in the same way.
#[unsafe(no_mangle)]
pub extern "C" fn solid_offset(
    cell: &[u8],
    distance: f64,
    corners: u64,
    s: &mut [f64],
    counts: &mut [u64],
    dst: &mut [f64],
    sizes: &mut [u64],
    answer: &mut [u8],
) -> u64
    ensures { OffsetDone cell.now distance corners s.old counts.old dst.old sizes.old answer.old result s.new counts.new dst.new sizes.new answer.new }
{
    solid_offset::offset(cell, distance, corners, s, counts, dst, sizes, answer)
}

// The cell with a cavity that leaves a wall of this thickness.
#[unsafe(no_mangle)]
pub extern "C" fn solid_hollow(
    cell: &[u8],
    thickness: f64,
    corners: u64,
    s: &mut [f64],
    counts: &mut [u64],
    dst: &mut [f64],
    sizes: &mut [u64],
    answer: &mut [u8],
) -> u64
    ensures { HollowDone cell.now thickness corners s.old counts.old dst.old sizes.old answer.old result s.new counts.new dst.new sizes.new answer.new }
{
    solid_offset::hollow(cell, thickness, corners, s, counts, dst, sizes, answer)
}

// The triangles of a facet of at most 128 corners; it takes no room.
#[unsafe(no_mangle)]
pub extern "C" fn solid_mesh(facet: &[u8], answer: &mut [u8]) -> u64
    ensures { MeshDone facet.now answer.old result answer.new }
{
    solid_mesh::mesh(facet, answer)
}

// The version of the archive: 10,000 times the major number, 100 times the minor one, and the patch. The number in its name is that of the
// layout on which header and archive must agree: `include/solid.h` asks for it by that name.
#[unsafe(no_mangle)]
pub extern "C" fn solid_version_1() -> u64
    ensures { result ≡ 200 }
{
    200
}
