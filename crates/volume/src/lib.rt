#![tactic(auto)]

// `volume_sign`: the sign of a shell's six-fold volume in intervals. Point i lies in `points` from 3 * i on; the vertices of
// facet f are v[starts[f]..starts[f + 1]]; `shell` lists facets.
ghost use Rattle.std.specs.Prelude.{◌≡◌, map, ℕ, ◌+◌, ◌*◌, ◌<◌, ◌≤◌, length, get_or};
ghost use Rattle.std.proofs.Math.Seq.{slice};
ghost use Rattle.interval.specs.Box.{cross_i};
ghost use Rattle.interval.specs.Ends.{zero, point_i};
ghost use Rattle.space.specs.Vector.{box_of};
ghost use Rattle.volume.specs.Volume.{wedge, fan_of, volume_from, volume_sign, sensed, sense_of};
ghost use Rattle.volume.specs.Shell.{point_at, vector_at, turn, facet_points, shell_points, Points, Facets};

use interval::{Interval, Sign};
use refusal::Refusal;
use space::Point3;

#[derive(Clone, Copy)]
pub enum Sensed {
    Outward,
    Inward,
}

#[tactic(auto, unfolding(crate::specs::Shell::point_at))]
fn corner(points: &[f64], i: usize) -> Point3
    requires { 3 * i + 3 ≤ length points.now }
    ensures { result ≡ point_at points.now i }
{
    let at = 3 * i;
    Point3 {
        x: points[at],
        y: points[at + 1],
        z: points[at + 2],
    }
}

// From the origin to point i.
#[tactic(auto, unfolding(crate::specs::Shell::vector_at))]
fn vector(points: &[f64], origin: [Interval; 3], i: usize) -> [Interval; 3]
    requires { 3 * i + 3 ≤ length points.now }
    ensures { result ≡ vector_at points.now origin i }
{
    interval::difference(space::coordinates(corner(points, i)), origin)
}

// One tetrahedron more, added in three parts.
#[tactic(auto, unfolding(crate::specs::Volume::wedge))]
fn add_wedge(total: Interval, a: [Interval; 3], n: [Interval; 3]) -> Interval
    ensures { result ≡ wedge total a n }
{
    let first = interval::add(total, interval::mul(a[0], n[0]));
    let second = interval::add(first, interval::mul(a[1], n[1]));
    interval::add(second, interval::mul(a[2], n[2]))
}

// The triangle of a facet's fan from vertex i to the next.
#[tactic(auto, using(crate::specs::Shell::points_at, crate::specs::Shell::points_next), unfolding(crate::specs::Shell::turn))]
fn add_turn(
    points: &[f64],
    v: &[u64],
    origin: [Interval; 3],
    a: [Interval; 3],
    i: usize,
    total: Interval,
) -> Interval
    requires { Points points.now v.now × (i + 1 < length v.now) }
    ensures { result ≡ turn points.now v.now origin a i total }
{
    let b = vector(points, origin, v[i] as usize);
    let c = vector(points, origin, v[i + 1] as usize);
    add_wedge(total, a, interval::cross(b, c))
}

// The fan of the facet v[s..e] from its first vertex.
fn add_fan(
    points: &[f64],
    v: &[u64],
    origin: [Interval; 3],
    s: usize,
    e: usize,
    volume: Interval,
) -> Interval
    requires { Points points.now v.now × (s < e) × (e ≤ length v.now) }
    ensures { result ≡ fan_of volume (map (vector_at points.now origin) (slice s e v.now)) }
{
    let a = vector(points, origin, v[s] as usize);
    let mut total = volume;
    for i in s + 1..e - 1 {
        total = add_turn(points, v, origin, a, i, total);
    }
    total
}

// The six-fold volume of a shell, fan by fan.
fn shell_volume(
    points: &[f64],
    v: &[u64],
    starts: &[u64],
    shell: &[u64],
    origin: [Interval; 3],
) -> Interval
    requires { Points points.now v.now × Facets v.now starts.now shell.now }
    ensures { result ≡ volume_from origin (point_i zero) (shell_points points.now v.now starts.now shell.now) }
{
    let mut total = interval::point(0.0);
    for &facet in shell {
        let k = facet as usize;
        let s = starts[k] as usize;
        let e = starts[k + 1] as usize;
        total = add_fan(points, v, origin, s, e, total);
    }
    total
}

#[tactic(auto, unfolding(crate::specs::Volume::sensed, crate::specs::Volume::sense_of))]
fn sense_of(s: Sign) -> Result<Sensed, Refusal>
    ensures { sensed result ≡ sense_of s }
{
    match s {
        Sign::Positive => Ok(Sensed::Outward),
        Sign::Negative => Ok(Sensed::Inward),
        Sign::Zero | Sign::Unknown => Err(refusal::refuse(21)),
    }
}

// The first corner of a shell, as point intervals.
fn origin_of(points: &[f64], v: &[u64], starts: &[u64], shell: &[u64]) -> [Interval; 3]
    requires { Points points.now v.now × Facets v.now starts.now shell.now }
    ensures { result ≡ box_of (point_at points.now (get_or v.now (get_or starts.now (get_or shell.now 0 0) 0) 0)) }
{
    let k = shell[0] as usize;
    let s = starts[k] as usize;
    space::coordinates(corner(points, v[s] as usize))
}

// Whether a shell's volume is certified outward or inward; else 21.
pub fn volume_sign(
    points: &[f64],
    v: &[u64],
    starts: &[u64],
    shell: &[u64],
) -> Result<Sensed, Refusal>
    requires { Points points.now v.now × Facets v.now starts.now shell.now }
    ensures { sensed result ≡ volume_sign (shell_points points.now v.now starts.now shell.now) }
{
    let origin = origin_of(points, v, starts, shell);
    sense_of(interval::sign_of(shell_volume(points, v, starts, shell, origin)))
}
