// The way back from the goal of a search: its events, by symbol and stamp.
ghost use Rattle.std.specs.Prelude.{◌≡◌, ◌&&◌, ℕ, suc, ◌≤◌, ◌<◌, eqb, length};
ghost use Rattle.model.specs.Inclusion.{most_joint_states};
ghost use Rattle.inclusion.specs.Views.{first_of, second_of, graph_in, joint_states};
ghost use Rattle.inclusion.specs.Graphs.{Graph};
ghost use Rattle.inclusion.specs.Parts.{low, high, level_mark};
ghost use Rattle.inclusion.specs.Trails.{Standing, Trail, Retraceable, Source, Nearest};
ghost use Rattle.inclusion.specs.Trails.{sum_of, sums, Retraced};

use crate::scan::{LEVEL_MARKS, WAYS, mark_at, state_at};
use crate::sides::Two;

// The level mark of the state at place k.
pub(crate) fn level_at(scratch: &[u32], k: usize) -> usize
    requires { (k < length scratch.now) × (low scratch.now k < length scratch.now)
        × (1 ≤ high scratch.now (low scratch.now k)) }
    ensures { result ≡ level_mark scratch.now (low scratch.now k) }
{
    let x = state_at(scratch, k);
    (mark_at(scratch, x) - 1) / WAYS
}

// How many events lead to the state at place `last`: levels rise one at a time.
pub(crate) fn depth(scratch: &[u32], last: usize) -> usize
    requires { Standing scratch.now (suc last) }
    ensures { (result ≤ last) × ((g : Graph) (n : ℕ) → Trail g scratch.now last n → result ≡ n) }
{
    let mut n: usize = 0;
    for k in 0..last {
        let here = level_at(scratch, k);
        let next = level_at(scratch, k + 1);
        if here != next {
            n += 1;
        }
    }
    n
}

// Does the symbol lead from the state at place k to x, at that level mark?
pub(crate) fn leads(
    two: Two<'_>,
    scratch: &[u32],
    k: usize,
    x: usize,
    symbol: usize,
    level: usize,
) -> bool
    requires long { length scratch.now ≡ joint_states two }
    requires place { k < length scratch.now }
    requires state { low scratch.now k < length scratch.now }
    requires marked { 1 ≤ high scratch.now (low scratch.now k) }
    requires known { symbol < (first_of two).built.symbols }
    ensures { result ≡ (eqb (level_mark scratch.now (low scratch.now k)) level
        && eqb ((graph_in two.entry).takes_to symbol (low scratch.now k)) x) }
{
    if level_at(scratch, k) != level {
        return false;
    }
    let j = two.apart(state_at(scratch, k));
    let next = two.take_from(j, symbol);
    two.pack(next) == x
}

// The place nearest below from which the symbol leads to x, at that level mark.
pub(crate) fn before(
    two: Two<'_>,
    scratch: &[u32],
    place: usize,
    x: usize,
    symbol: usize,
    level: usize,
) -> usize
    requires long { length scratch.now ≡ joint_states two }
    requires standing { Standing scratch.now place }
    requires known { symbol < (first_of two).built.symbols }
    requires source { Source (graph_in two) scratch.now place x symbol level }
    ensures { Nearest (graph_in two.entry) scratch.now place x symbol level result }
{
    for k in (0..place).rev() {
        if leads(two, scratch, k, x, symbol, level) {
            return k;
        }
    }
    0
}

// Symbols, and the pause before each, from the last event to the first.
pub(crate) fn retrace(
    two: Two<'_>,
    scratch: &[u32],
    last: usize,
    symbols: &mut [u16],
    stamps: &mut [u32],
)
    requires { Retraceable (first_of two) (second_of two) scratch.now last symbols.old stamps.old }
    ensures { Retraced (graph_in two.entry) scratch.now last symbols.new stamps.new }
{
    let mut k = last;
    let mut left = symbols.len();
    // No range: an event leads back over several places.
    while 0 < k {
        let x = state_at(scratch, k);
        let mark = mark_at(scratch, x) - 1;
        let way = mark % WAYS;
        if way == 0 {
            stamps[left] = stamps[left] + 1;
            k -= 1;
        } else {
            left -= 1;
            symbols[left] = (way - 1) as u16;
            let level = (mark / WAYS + (LEVEL_MARKS - 1)) % LEVEL_MARKS;
            k = before(two, scratch, k, x, way - 1, level);
        }
    }
}

// Pauses into stamps.
pub(crate) fn sum_up(stamps: &mut [u32])
    requires { sum_of stamps.old ≤ most_joint_states }
    ensures { stamps.new ≡ sums 0 stamps.old }
{
    let mut total: u32 = 0;
    for stamp in stamps {
        total = total + *stamp;
        *stamp = total;
    }
}
