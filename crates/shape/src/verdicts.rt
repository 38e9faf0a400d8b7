// Stored verdicts: the number that a row stores is what its codes say.
ghost use Rattle.std.specs.Prelude.{◌≡◌, ◌≤◌};
ghost use Rattle.model.specs.Basics.{one_if};
ghost use Rattle.model.specs.Walks.{location_weight, verdicts_ok};
ghost use Rattle.shape.specs.Verdicts.{reciprocal, final_by, ProductsFit, Settled};

use crate::Sizes;
use model::{ROW_LENGTH, ROW_VERDICT, ROW_WIDTH};
use numbers::has_bit;

// What stands for 1 where a code's location is found by multiplication: 2^33.
const WHOLE: usize = 8589934592;

// A code times this, over 2^33, is the code over the weight. 25 is asked at every event, and a division for each code
// would take most of its time.
pub(crate) fn reciprocal_of(weight: usize) -> usize
    requires { 1 ≤ weight }
    ensures { result ≡ reciprocal weight }
{
    WHOLE / weight + 1
}

// Does some code stand at a final location? All are looked at, whatever is found.
// Not one with the builder's row_says: that one divides, by any weight, and takes nine times as long for 64 codes.
pub(crate) fn row_says(codes: &[u32], reciprocal: usize, ends: u32) -> bool
    requires { ProductsFit reciprocal codes.now }
    ensures { result ≡ final_by reciprocal ends codes.now }
{
    let set = ends as usize;
    let mut says = false;
    for code in codes {
        if has_bit(set, *code as usize * reciprocal / WHOLE) {
            says = true;
        }
    }
    says
}

// Every row stores what its codes say. The rows are known to lie in their table, so no place is tested. Written into
// its one caller: called, it got a copy of the sizes.
#[inline(always)]
pub(crate) fn verdicts_ok(sizes: Sizes, rows: &[u32], pool: &[u32]) -> bool
    requires { Settled sizes.built rows.now pool.now }
    ensures { result ≡ verdicts_ok sizes.built.rows 0 sizes.built rows.now pool.now }
{
    let built = sizes.built;
    let reciprocal = reciprocal_of(sizes.location_weight());
    let need = ROW_WIDTH * built.rows as usize;
    for row in rows[..need].chunks_exact(ROW_WIDTH) {
        let start = row[0] as usize;
        let end = start + row[ROW_LENGTH] as usize;
        let says = row_says(&pool[start..end], reciprocal, built.ends);
        if u32::from(says) != row[ROW_VERDICT] {
            return false;
        }
    }
    true
}
