#![tactic(auto)]

// Facets that meet: `same_cycle` over two rows of one slice.
ghost use Rattle.std.specs.Prelude.{◌≡◌, ℕ, ◌+◌, ◌<◌, ◌≤◌, length};
ghost use Rattle.std.proofs.Math.Seq.{slice};
ghost use Rattle.bodies.specs.Fusing.{turned_by, same_cycle};
ghost use Rattle.meet.specs.Cycle.{Rows};

// Whether the n vertices from a on are those from b on, turned back to front, with the first at `shift`.
#[tactic(auto, using(crate::specs::Cycle::turning_start, crate::specs::Cycle::turning_step, crate::specs::Cycle::turning_stop, crate::specs::Cycle::turning_end))]
fn turned_by(v: &[u64], a: usize, b: usize, n: usize, shift: usize) -> bool
    requires { (a + n ≤ length v.now) × (b + n ≤ length v.now) × (shift < n) }
    ensures { result ≡ turned_by (slice a (a + n) v.now) (slice b (b + n) v.now) shift }
{
    for i in 0..n {
        if v[a + i] != v[b + (shift + n - i) % n] {
            return false;
        }
    }
    true
}

// Whether the cycle v[a..ae] is v[b..be] turned back to front.
#[tactic(auto, using(crate::specs::Cycle::shifting_step, crate::specs::Cycle::shifting_stop, crate::specs::Cycle::shifting_end, crate::specs::Cycle::unequal))]
pub fn same_cycle(v: &[u64], a: usize, ae: usize, b: usize, be: usize) -> bool
    requires { Rows v.now a ae b be }
    ensures { result ≡ same_cycle (slice a ae v.now) (slice b be v.now) }
{
    let n = be - b;
    if ae - a != n {
        return false;
    }
    for shift in 0..n {
        if turned_by(v, a, b, n, shift) {
            return true;
        }
    }
    false
}
