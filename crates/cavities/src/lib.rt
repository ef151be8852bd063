#![tactic(auto)]

// The shells of a body in order: exactly one is outward and comes first, the inward ones follow as found. Shell k is
// d[c[k]..c[k + 1]], a list of facets.
ghost use Rattle.std.specs.Prelude.{◌≡◌, ℕ, ◌+◌, ◌<◌, ◌≤◌, length};
ghost use Rattle.keys.specs.Rows.{rows};
ghost use Rattle.std.proofs.Math.Seq.{slice};
ghost use Rattle.volume.specs.Volume.{sensed};
ghost use Rattle.volume.specs.Shell.{Points, Facets};
ghost use Rattle.cavities.specs.Outer.{Ordered};
ghost use Rattle.cavities.specs.Steps.{volume_of, placed_at, ended_at, Shelled};
ghost use Rattle.volume.specs.declared.Sensed.TheVariants.{Outward};

use refusal::Refusal;
use volume::Sensed;

// A second outward shell is 22.
#[tactic(auto, unfolding(crate::specs::Steps::placed_at))]
fn place_outward(k: usize, outer: Option<usize>) -> Result<Option<usize>, Refusal>
    ensures { result ≡ placed_at Outward k outer }
{
    match outer {
        Some(_) => Err(refusal::refuse(22)),
        None => Ok(Some(k)),
    }
}

// One shell: k, where it is the outward one, else the one that was met before.
#[tactic(auto, unfolding(crate::specs::Steps::placed_at))]
fn place_shell(sense: Sensed, k: usize, outer: Option<usize>) -> Result<Option<usize>, Refusal>
    ensures { result ≡ placed_at sense k outer }
{
    match sense {
        Sensed::Outward => place_outward(k, outer),
        Sensed::Inward => Ok(outer),
    }
}

// No outward shell is 23.
#[tactic(auto, unfolding(crate::specs::Steps::ended_at))]
fn end_search(outer: Option<usize>) -> Result<usize, Refusal>
    ensures { result ≡ ended_at outer }
{
    outer.ok_or(refusal::refuse(23))
}

// The sense of the shell d[a..e].
#[tactic(auto, using(crate::specs::Steps::part_facets, crate::specs::Steps::part_sense))]
fn shell_sense(
    points: &[f64],
    v: &[u64],
    starts: &[u64],
    d: &[u64],
    a: usize,
    e: usize,
) -> Result<Sensed, Refusal>
    requires { Points points.now v.now × (a ≤ e) × (e ≤ length d.now) × Facets v.now starts.now (slice a e d.now) }
    ensures { sensed result ≡ volume_of points.now v.now starts.now (slice a e d.now) }
{
    volume::volume_sign(points, v, starts, &d[a..e])
}

// Which of g shells is outward: 21, 22 and 23 in the order of shells.
pub fn find_outer(
    points: &[f64],
    v: &[u64],
    starts: &[u64],
    f: usize,
    d: &[u64],
    c: &[u64],
    g: usize,
) -> Result<usize, Refusal>
    requires { Points points.now v.now × Shelled v.now starts.now f d.now c.now g }
    ensures { Ordered (volume_of points.now v.now starts.now) (rows d.now c.now g) result }
{
    let mut outer = None;
    for k in 0..g {
        let a = c[k] as usize;
        let e = c[k + 1] as usize;
        let sense = shell_sense(points, v, starts, d, a, e)?;
        outer = place_shell(sense, k, outer)?;
    }
    end_search(outer)
}
