#![tactic(auto)]

// The bytes of the solids of a list of cells, one after another.
ghost use Rattle.std.specs.Prelude.{◌≡◌, ◌*◌, ◌≤◌, length};
ghost use Rattle.refusal.specs.Outcome.{then};
ghost use Rattle.finish.specs.Finish.{solids_told, Holding};
ghost use Rattle.ended.specs.Ends.{ended_of, written};
ghost use Rattle.cell_answer.specs.Solids.{solids_answer};

use ended::Ended;
use refusal::Refusal;

// The solids that lie in the slices are written from the front of `out` on, which has 64 bytes for each corner of the room; a refusal
// is handed on, and leaves `out` as it is.
pub fn put_solids(
    limit: usize,
    v: Result<(), Refusal>,
    many: usize,
    points: &[f64],
    places: &[u64],
    counts: &[u64],
    sizes: &[u64],
    marks: &[u64],
    out: &mut [u8],
) -> Ended
    requires { Holding limit many v points.now places.now counts.now sizes.now marks.now × (64 * limit ≤ length out.old) }
    ensures value { (result ≡ ended_of (then (solids_told v many points.now places.now counts.now sizes.now marks.now) solids_answer)) × (result.bytes ≤ 32 * limit) }
    ensures out_after { out.new ≡ written (then (solids_told v many points.now places.now counts.now sizes.now marks.now) solids_answer) out.old }
{
    let Ok(()) = v else {
        return Ended {
            verdict: v,
            bytes: 0,
        };
    };
    let mut p = 0;
    let mut q = 0;
    let mut f = 0;
    let mut at = 0;
    for j in 0..many {
        let m = marks[j] as usize;
        let n = sizes[j] as usize;
        let c = finish::corners_of(counts, f, n, limit);
        at = answer::put_solid(&points[p..], m, &places[q..], &counts[f..], n, out, at);
        p += 3 * m;
        q += c;
        f += n;
    }
    Ended {
        verdict: Ok(()),
        bytes: at,
    }
}
