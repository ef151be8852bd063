#![tactic(auto)]

// The bytes of the bodies of a list of cells, out of the slices that `fuse_list` leaves.
ghost use Rattle.std.specs.Prelude.{◌≡◌, ◌*◌, ◌≤◌, length, Ok};
ghost use Rattle.fuse_list.specs.declared.Listing.{Listing};
ghost use Rattle.refusal.specs.Outcome.{then};
ghost use Rattle.stack.specs.Stacks.{list_at, Holds};
ghost use Rattle.arrangement.specs.Arrangements.{Lent};
ghost use Rattle.ended.specs.Ends.{ended_of, written};
ghost use Rattle.fused.specs.Bodies.{fuse_cells};
ghost use Rattle.fuse_list.specs.Lists.{Tools};
ghost use Rattle.fused_bytes.specs.Bytes.{answer_of, print_at, Printable};

use ended::Ended;
use fuse_list::Listing;
use refusal::Refusal;
use space::Precision;
use stack::Stack;

// The bodies, one behind another; a refusal stays, and leaves the answer as it is. The faces of the cells stand in `d` and `counts`.
pub fn put_listing(
    y: Result<Listing, Refusal>,
    d: &[f64],
    counts: &[u64],
    points: &[f64],
    cycles: &[u64],
    starts: &[u64],
    facets: &[u64],
    sizes: &[u64],
    shells: &[u64],
    spots: &mut [u64],
    out: &mut [u8],
) -> Ended
    requires { (m : Listing) → y ≡ Ok m → Printable m d.now counts.now points.now cycles.now starts.now facets.now sizes.now shells.now spots.old out.old }
    ensures value { result ≡ ended_of (print_at y d.now counts.now points.now cycles.now starts.now facets.now sizes.now shells.now spots.old) }
    ensures out_after { out.new ≡ written (print_at y d.now counts.now points.now cycles.now starts.now facets.now sizes.now shells.now spots.old) out.old }
{
    let made = match y {
        Ok(made) => made,
        Err(r) => {
            return Ended {
                verdict: Err(r),
                bytes: 0,
            };
        }
    };
    let a = made.layout;
    let b = made.fused;
    let m = a.points;
    let f = a.facets;
    let v = a.vertices;
    let x = b.facets;
    let g = b.bodies;
    fused_answer::plane_spots(counts, f, d.len(), spots);
    let bytes = fused_answer::put_bodies(
        d,
        spots,
        &points[..3 * m],
        &cycles[..v],
        &starts[..f + 1],
        f,
        &facets[..x],
        sizes,
        shells,
        g,
        out,
        0,
    );
    Ended {
        verdict: Ok(()),
        bytes,
    }
}

// The bytes of a list's bodies: its cells are arranged, fused and written; the first refusal stays. Everything that is lent but for
// the answer is work memory, the sizes of the list's cells too.
pub fn fused_bytes(
    t: Precision,
    limit: usize,
    list: Stack,
    d: &[f64],
    counts: &[u64],
    sizes: &mut [u64],
    points: &mut [f64],
    corners: &mut [u64],
    cycles: &mut [u64],
    lengths: &mut [u64],
    starts: &mut [u64],
    owners: &mut [u64],
    cells: &mut [u64],
    cuts: &mut [u64],
    runs: &mut [u64],
    k: &mut [u64],
    s: &mut [u64],
    ord: &mut [u64],
    ends: &mut [u64],
    marks: &mut [u64],
    out: &mut [u64],
    many: &mut [u64],
    shells: &mut [u64],
    answer: &mut [u8],
) -> Ended
    requires { Holds limit list d.now counts.now sizes.old × Lent limit points.old corners.old cycles.old lengths.old starts.old owners.old × Tools limit corners.old cells.old cuts.old lengths.old runs.old k.old s.old ord.old ends.old sizes.old marks.old out.old many.old shells.old × (64 * limit ≤ length answer.old) }
    ensures value { (result ≡ ended_of (answer_of (then (list_at list d.now counts.now sizes.old) (fuse_cells t limit)))) × (result.bytes ≤ 64 * limit) }
    ensures answer_after { answer.new ≡ written (answer_of (then (list_at list d.now counts.now sizes.old) (fuse_cells t limit))) answer.old }
{
    let y = fuse_list::fuse_list(
        t, limit, list, d, counts, sizes, points, corners, cycles, lengths, starts, owners, cells,
        cuts, runs, k, s, ord, ends, marks, out, many, shells,
    );
    put_listing(
        y, d, counts, points, cycles, starts, out, many, shells, corners, answer,
    )
}
