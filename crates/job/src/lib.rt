#![tactic(auto)]

// The reader of jobs: it says where the parts of a job stand in the bytes that were lent, and reads them there.
// Each contract is one equation with a definition of `specs/`.
ghost use Rattle.std.specs.Prelude.{◌≡◌, ◌+◌, ◌<◌, drop};
ghost use Rattle.job.specs.Records.{standing, run_of, faces_of, span_end, span_of};
ghost use Rattle.job.specs.Read.{headed, precision_at, operation_of, operation_at, layout_as, layout_of, cell_end, cell_layout, spot_at, plane_at, facet_end, facet_headed, facet_layout, point_from, point_at};

use refusal::Refusal;
use space::{Frame, Plane, Point3, Precision};

#[derive(Clone, Copy)]
pub enum Operation {
    Intersection,
    Difference,
    Union,
}

// How many faces stand one after the other, and how many corners they have together.
#[derive(Clone, Copy)]
pub struct Faces {
    pub faces: usize,
    pub corners: usize,
}

// Where a solid stands: its first point, its first face and the place after its end, and how many of each it has.
#[derive(Clone, Copy)]
pub struct Span {
    pub start: usize,
    pub points: usize,
    pub middle: usize,
    pub faces: usize,
    pub corners: usize,
    pub end: usize,
}

#[derive(Clone, Copy)]
pub struct Layout {
    pub precision: Precision,
    pub first: Span,
    pub second: Span,
    pub operation: Operation,
}

// A solid alone, with its tolerances.
#[derive(Clone, Copy)]
pub struct CellLayout {
    pub precision: Precision,
    pub solid: Span,
}

// A facet for the mesh: its plane, and where its corners stand.
#[derive(Clone, Copy)]
pub struct FacetLayout {
    pub precision: Precision,
    pub plane: Plane,
    pub start: usize,
    pub points: usize,
}

// Whether a whole record of a kind stands at a place.
#[tactic(auto, using(crate::specs::Runs::stands_none, crate::specs::Runs::stands_cut, crate::specs::Runs::stands_here))]
pub fn stands(job: &[u8], at: usize, kind: u8, body: usize) -> bool
    ensures { result ≡ standing kind body (drop at job.now) }
{
    if job.len() <= at {
        return false;
    }
    if job.len() - at <= body {
        return false;
    }
    job[at] == kind
}

// How many records of a kind stand one after the other.
#[tactic(auto, using(crate::specs::Runs::stands_in))]
pub fn run(job: &[u8], start: usize, kind: u8, body: usize) -> usize
    ensures { result ≡ run_of kind body (drop start job.now) }
{
    let mut at = start;
    let mut n = 0;
    // How many records there are, only reading them says.
    while stands(job, at, kind, body) {
        at += 1 + body;
        n += 1;
    }
    n
}

fn faces_from(job: &[u8], start: usize) -> Faces
    ensures { result ≡ faces_of (drop start job.now) }
{
    let mut at = start;
    let mut faces = 0;
    let mut corners = 0;
    // How many faces there are, only reading them says, and at jumps over the corners of each.
    while stands(job, at, 3, 0) {
        let n = run(job, at + 1, 4, 2);
        at += 1 + 3 * n;
        faces += 1;
        corners += n;
    }
    Faces { faces, corners }
}

#[tactic(auto, using(crate::specs::Runs::stands_in), unfolding(crate::specs::Records::span_end))]
fn span_end(
    job: &[u8],
    start: usize,
    points: usize,
    middle: usize,
    f: Faces,
    end: usize,
) -> Result<Span, Refusal>
    ensures { result ≡ span_end job.now start points middle f end }
{
    if !stands(job, end, 5, 0) {
        return Err(refusal::refuse(1));
    }
    Ok(Span {
        start,
        points,
        middle,
        faces: f.faces,
        corners: f.corners,
        end: end + 1,
    })
}

// Where a solid stands that begins at a place.
#[tactic(auto, using(crate::proofs::Answers::span_all))]
pub fn span_at(job: &[u8], start: usize) -> Result<Span, Refusal>
    ensures { result ≡ span_of job.now start }
{
    let points = run(job, start, 2, 24);
    let middle = start + 25 * points;
    let f = faces_from(job, middle);
    span_end(
        job,
        start,
        points,
        middle,
        f,
        middle + f.faces + 3 * f.corners,
    )
}

#[tactic(auto, unfolding(crate::specs::Read::operation_of))]
fn operation_of(b: u8) -> Result<Operation, Refusal>
    ensures { result ≡ operation_of b }
{
    match b {
        1 => Ok(Operation::Intersection),
        2 => Ok(Operation::Difference),
        3 => Ok(Operation::Union),
        _ => Err(refusal::refuse(1)),
    }
}

// The operation, with which the job ends.
#[tactic(auto, using(crate::specs::Runs::stands_in), unfolding(crate::specs::Read::operation_at, crate::specs::Read::closing))]
fn operation_at(job: &[u8], at: usize) -> Result<Operation, Refusal>
    ensures { result ≡ operation_at job.now at }
{
    if !stands(job, at, 6, 1) {
        return Err(refusal::refuse(1));
    }
    if job.len() != at + 2 {
        return Err(refusal::refuse(1));
    }
    operation_of(job[at + 1])
}

// Whether it is not too long and begins with its tolerances.
#[tactic(auto, unfolding(crate::specs::Read::headed))]
fn is_headed(job: &[u8]) -> bool
    ensures { result ≡ headed job.now }
{
    (job.len() <= 32768) & stands(job, 0, 1, 16)
}

#[tactic(auto, unfolding(crate::specs::Read::precision_at))]
fn precision_at(job: &[u8]) -> Precision
    ensures { result ≡ precision_at job.now 1 }
{
    Precision {
        linear: words::float_at(job, 1),
        local: words::float_at(job, 9),
    }
}

#[tactic(auto, unfolding(crate::specs::Read::layout_as))]
fn layout_as(job: &[u8], first: Span, second: Span, operation: Operation) -> Layout
    ensures { result ≡ layout_as job.now first second operation }
{
    Layout {
        precision: precision_at(job),
        first,
        second,
        operation,
    }
}

// A job, read whole: where its parts stand, or 1.
#[tactic(auto, unfolding(crate::specs::Read::layout_of, crate::specs::Read::layout_after, crate::specs::Read::layout_on))]
pub fn read_job(job: &[u8]) -> Result<Layout, Refusal>
    ensures { result ≡ layout_of job.now }
{
    if !is_headed(job) {
        return Err(refusal::refuse(1));
    }
    let first = span_at(job, 17)?;
    let second = span_at(job, first.end)?;
    let operation = operation_at(job, second.end)?;
    Ok(layout_as(job, first, second, operation))
}

#[tactic(auto, unfolding(crate::specs::Read::cell_end))]
fn cell_end(job: &[u8], solid: Span) -> Result<CellLayout, Refusal>
    ensures { result ≡ cell_end job.now solid }
{
    if job.len() != solid.end {
        return Err(refusal::refuse(1));
    }
    Ok(CellLayout {
        precision: precision_at(job),
        solid,
    })
}

// One solid alone, read whole.
#[tactic(auto, unfolding(crate::specs::Read::cell_layout))]
pub fn read_cell(job: &[u8]) -> Result<CellLayout, Refusal>
    ensures { result ≡ cell_layout job.now }
{
    if !is_headed(job) {
        return Err(refusal::refuse(1));
    }
    cell_end(job, span_at(job, 17)?)
}

#[tactic(auto, unfolding(crate::specs::Read::spot_at))]
fn spot_at(job: &[u8], at: usize) -> Point3
    requires { at + 16 < 65536 }
    ensures { result ≡ spot_at job.now at }
{
    Point3 {
        x: words::float_at(job, at),
        y: words::float_at(job, at + 8),
        z: words::float_at(job, at + 16),
    }
}

#[tactic(auto, unfolding(crate::specs::Read::plane_at))]
fn plane_at(job: &[u8]) -> Plane
    ensures { result ≡ plane_at job.now 18 }
{
    let origin = spot_at(job, 18);
    let x = spot_at(job, 42);
    let y = spot_at(job, 66);
    let z = spot_at(job, 90);
    Plane {
        frame: Frame { origin, x, y, z },
        mark: 0.0,
    }
}

#[tactic(auto, unfolding(crate::specs::Read::facet_end))]
fn facet_end(job: &[u8], points: usize) -> Result<FacetLayout, Refusal>
    requires { points < 65536 }
    ensures { result ≡ facet_end job.now points }
{
    if job.len() != 114 + 25 * points {
        return Err(refusal::refuse(1));
    }
    Ok(FacetLayout {
        precision: precision_at(job),
        plane: plane_at(job),
        start: 114,
        points,
    })
}

#[tactic(auto, unfolding(crate::specs::Read::facet_headed))]
fn is_facet_headed(job: &[u8]) -> bool
    ensures { result ≡ facet_headed job.now }
{
    is_headed(job) & stands(job, 17, 9, 96)
}

// One facet for the mesh, read whole.
#[tactic(auto, unfolding(crate::specs::Read::facet_layout))]
pub fn read_facet(job: &[u8]) -> Result<FacetLayout, Refusal>
    ensures { result ≡ facet_layout job.now }
{
    if !is_facet_headed(job) {
        return Err(refusal::refuse(1));
    }
    facet_end(job, run(job, 114, 2, 24))
}

// The point whose record is the front of some bytes.
#[tactic(auto, unfolding(crate::specs::Read::point_from))]
fn point_from(s: &[u8]) -> Point3
    ensures { result ≡ point_from s.now }
{
    Point3 {
        x: words::float_at(s, 1),
        y: words::float_at(s, 9),
        z: words::float_at(s, 17),
    }
}

// Point i of those that begin at a place; past the bytes it is the origin.
#[tactic(auto, using(crate::proofs::Answers::point_none, crate::proofs::Answers::point_past, crate::proofs::Answers::point_here))]
pub fn point_at(job: &[u8], start: usize, i: usize) -> Point3
    ensures { result ≡ point_at job.now start i }
{
    if job.len() <= start {
        return point_from(&job[..0]);
    }
    if (job.len() - start) / 25 < i {
        return point_from(&job[..0]);
    }
    point_from(&job[start + 25 * i..])
}
