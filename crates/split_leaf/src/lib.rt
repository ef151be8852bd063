#![tactic(auto)]

// `split_cells` for the tests that call it from outside. 64 says that the slices hold no list of cells or are too short; everything
// is then as it was.
ghost use Rattle.std.specs.Prelude.{◌≡◌, [], ◌∷◌, ◌≤◌, length};
ghost use Rattle.std.proofs.lemmas.List.Edits.{sets};
ghost use Rattle.lent.specs.Lent.{number_by, where_fine};
ghost use Rattle.split_leaf.specs.Splitting.{split_fits, split_lent, Split};

use refusal::Refusal;
use space::Precision;
use stack::Stack;

const NONE: u64 = 64;

// The most corners that the call's own memory is enough for.
const ROOM: usize = 6400;

fn split_fits(limit: usize, d: usize, counts: usize, sizes: usize, told: usize) -> bool
    ensures { result ≡ split_fits limit d counts sizes told }
{
    if ROOM < limit {
        return false;
    }
    let lists = (11 * limit + 1664 <= d) & (limit + 128 <= counts);
    lists & ((limit < sizes) & (3 <= told))
}

// How many cells, faces and corners there are, or the number of the refusal.
fn put_stack(told: &mut [u64], s: Stack) -> u64
    requires { 3 ≤ length told.old }
    ensures value { result ≡ number_by s.verdict }
    ensures told_after { told.new ≡ where_fine s.verdict (sets told.old 0 (s.cells ∷ s.faces ∷ s.corners ∷ [])) told.old }
{
    let v = s.verdict;
    match v {
        Err(e) => e.number,
        Ok(()) => {
            told[0] = s.cells as u64;
            told[1] = s.faces as u64;
            told[2] = s.corners as u64;
            0
        }
    }
}

// The first `cells` cells of `d`, `counts` and `sizes` are split by each of the planes, as a room holds planes; their parts stand there
// then, and `told` gets how many cells, faces and corners they are. What stands behind the list, and everything after a refusal but
// 64, is work memory. The call's own memory stands before its first return: the compiler mixes up the result of a return that comes
// before a frame of many pages.
#[unsafe(no_mangle)]
pub extern "C" fn leaf_split(
    linear: f64,
    local: f64,
    limit: usize,
    planes: &[f64],
    cells: usize,
    d: &mut [f64],
    counts: &mut [u64],
    sizes: &mut [u64],
    told: &mut [u64],
) -> u64
    ensures { Split limit (split_fits limit (length d.old) (length counts.old) (length sizes.old) (length told.old)) (split_lent (record { linear = linear; local = local }) limit planes.now cells d.old counts.old sizes.old) result d.old counts.old sizes.old told.old d.new counts.new sizes.new told.new }
{
    let mut spare = [0.0; 72064];
    let mut slots = [0u64; 6528];
    let mut seats = [0u64; 6401];
    let fits = split_fits(limit, d.len(), counts.len(), sizes.len(), told.len());
    if !fits {
        return NONE;
    }
    let t = Precision { linear, local };
    let list = list_lent::list_in(limit, cells, d, counts, sizes);
    let s = splits::split_cells(
        t,
        limit,
        planes,
        planes.len() / room::PLANE,
        list,
        d,
        counts,
        sizes,
        &mut spare,
        &mut slots,
        &mut seats,
    );
    put_stack(told, s)
}
