#![tactic(auto)]

// A list of cells that is handed in from outside stands in three slices. They are tested before anything reads them: 64 says that
// no list of cells stands there.
ghost use Rattle.std.specs.Prelude.{◌≡◌, ◌≤◌, length, take, Err};
ghost use Rattle.refusal.specs.Outcome.{refusal_of};
ghost use Rattle.stack.specs.Stacks.{stack_of, Listed};
ghost use Rattle.list_lent.specs.Lent.{total_by, list_in};

use refusal::Refusal;
use stack::Stack;

const NONE: u64 = 64;

const MOST: usize = 4294967296;

// The sum of n numbers that are from low to high, or one above `most` where it is more or they are not.
fn total(low: usize, high: usize, most: usize, s: &[u64], n: usize) -> usize
    requires { (most ≤ 4294967296) × (n ≤ length s.now) }
    ensures { result ≡ total_by low high most (take n s.now) }
{
    let mut sum = 0;
    for i in 0..n {
        let c = s[i] as usize;
        if c < low {
            return most + 1;
        }
        if high < c {
            return most + 1;
        }
        if most - sum < c {
            return most + 1;
        }
        sum += c;
    }
    sum
}

fn none() -> Stack
    ensures { result ≡ stack_of (Err (refusal_of 64)) }
{
    stack::gone(refusal::refuse(NONE))
}

// The first `cells` cells: the floats of their faces stand in `d`, how many corners each face has in `counts`, and how many faces each
// cell has in `sizes`. A cell has 1 to 128 faces, a face 3 to 128 corners, and all of them no more corners than the limit.
pub fn list_in(limit: usize, cells: usize, d: &[f64], counts: &[u64], sizes: &[u64]) -> Stack
    ensures { Listed limit (list_in limit cells d.now counts.now sizes.now) result d.now counts.now sizes.now }
{
    if MOST < limit {
        return none();
    }
    if sizes.len() < cells {
        return none();
    }
    let faces = total(1, 128, limit, sizes, cells);
    if limit < faces {
        return none();
    }
    if counts.len() < faces {
        return none();
    }
    let corners = total(3, 128, limit, counts, faces);
    if limit < corners {
        return none();
    }
    if d.len() < room::PLANE * faces + 3 * corners {
        return none();
    }
    Stack {
        verdict: Ok(()),
        cells,
        faces,
        corners,
    }
}
