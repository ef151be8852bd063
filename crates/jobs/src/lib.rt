#![tactic(auto)]

// What every call begins with: the bytes read whole, the room, the tolerances, and then the solids, each in a room of its own.
ghost use Rattle.std.specs.Prelude.{◌≡◌, ◌≤◌, length};
ghost use Rattle.intake.specs.Layouts.{Stood};
ghost use Rattle.jobs.specs.Jobs.{open_job, open_cell, open_with, open_cell_with, both_of, TookBoth};

use job::{CellLayout, Layout};
use refusal::Refusal;

// How many faces each of two cells has.
#[derive(Clone, Copy)]
pub struct Pair {
    pub first: usize,
    pub second: usize,
}

#[tactic(auto, unfolding(crate::specs::Jobs::open_with))]
fn open_with(y: Layout, lends: bool) -> Result<Layout, Refusal>
    ensures { result ≡ open_with lends y }
{
    if !lends {
        return Err(refusal::refuse(12));
    }
    if !space::is_fair_precision(y.precision) {
        return Err(refusal::refuse(2));
    }
    Ok(y)
}

// A job: 1; 12 where too little is lent for the room; 2 for its tolerances.
#[tactic(auto, unfolding(crate::specs::Jobs::open_job))]
pub fn open_job(job: &[u8], lends: bool) -> Result<Layout, Refusal>
    ensures { result ≡ open_job lends job.now }
{
    open_with(job::read_job(job)?, lends)
}

#[tactic(auto, unfolding(crate::specs::Jobs::open_cell_with))]
fn open_cell_with(y: CellLayout, lends: bool) -> Result<CellLayout, Refusal>
    ensures { result ≡ open_cell_with lends y }
{
    if !lends {
        return Err(refusal::refuse(12));
    }
    if !space::is_fair_precision(y.precision) {
        return Err(refusal::refuse(2));
    }
    Ok(y)
}

// One solid alone: 1, 12 and 2 alike. Its check is `intake::take_solid`.
#[tactic(auto, unfolding(crate::specs::Jobs::open_cell))]
pub fn open_cell(job: &[u8], lends: bool) -> Result<CellLayout, Refusal>
    ensures { result ≡ open_cell lends job.now }
{
    open_cell_with(job::read_cell(job)?, lends)
}

// The solids of a job that was read: the whole check of the first, then that of the second.
pub fn take_both(
    job: &[u8],
    y: Layout,
    a: &mut [f64],
    held: &mut [u64],
    b: &mut [f64],
    counts: &mut [u64],
) -> Result<Pair, Refusal>
    requires stood { Stood job.now y.first × Stood job.now y.second }
    requires in_bounds { (1984 ≤ length a.old) × (64 ≤ length held.old) × (1984 ≤ length b.old) × (64 ≤ length counts.old) }
    ensures { TookBoth (both_of job.now y) result a.new held.new b.new counts.new }
{
    let first = intake::take_solid(y.precision, job, y.first, a, held)?;
    let second = intake::take_solid(y.precision, job, y.second, b, counts)?;
    Ok(Pair { first, second })
}
