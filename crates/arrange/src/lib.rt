#![tactic(auto)]

// The facets of an arrangement after `conform`, against the room.
ghost use Rattle.std.specs.Prelude.{◌≡◌, ◌+◌, ◌≤◌};
ghost use Rattle.refusal.specs.Outcome.{then};
ghost use Rattle.polygon.specs.Memory.{points_at};
ghost use Rattle.room.specs.Rooms.{counts_at};
ghost use Rattle.solids.specs.Frames.{faces_at};
ghost use Rattle.arrange.specs.Arrange.{fitted, conform_all};
ghost use Rattle.arrange.specs.Facets.{Given, Arranged};

use refusal::Refusal;
use space::Precision;

// 12 where a facet's vertices would be more than the room has left behind q others.
fn fitted(made: Result<usize, Refusal>, q: usize, limit: usize) -> Result<usize, Refusal>
    requires { q ≤ limit }
    ensures { result ≡ then (made) (λ m. fitted limit q m) }
{
    let m = made?;
    if limit - q < m {
        return Err(refusal::refuse(12));
    }
    Ok(m)
}

// Each of the faces, a cycle of corners among n points, conforms: its cycle goes to `cycles`, one behind another, and how long it is to
// `sizes`. Returns how many vertices there are in all.
pub fn conform_all(
    t: Precision,
    limit: usize,
    points: &[f64],
    n: usize,
    corners: &[u64],
    counts: &[u64],
    faces: usize,
    lows: &mut [f64],
    highs: &mut [f64],
    places: &mut [u64],
    cycles: &mut [u64],
    sizes: &mut [u64],
) -> Result<usize, Refusal>
    requires { Given limit points.now n corners.now counts.now faces lows.old highs.old places.old sizes.old }
    ensures { Arranged (conform_all t limit (points_at points.now 0 n) (faces_at corners.now 0 (counts_at counts.now 0 faces))) lows.old highs.old places.old cycles.old sizes.old lows.new highs.new places.new cycles.new sizes.new result }
{
    let mut q = 0;
    let mut first = 0;
    for j in 0..faces {
        let c = counts[j] as usize;
        let made = conform::conform(
            t, points, n, corners, first, c, lows, highs, places, cycles, q,
        );
        let m = fitted(made, q, limit)?;
        sizes[j] = m as u64;
        q += m;
        first += c;
    }
    Ok(q)
}
