// The check of a built record and its tables: every condition of 25, over tables that may hold any numbers.
#![tactic(auto)]

ghost use Rattle.std.specs.Prelude.{◌≡◌, ℕ, ◌≤◌, true, false, MatchOption};
ghost use Rattle.model.specs.Basics.{all_below};
ghost use Rattle.model.specs.Construction.{interval_count, most_rows};
ghost use Rattle.model.specs.Faults.{answer_in};
ghost use Rattle.tables.specs.Views.{table_in};
ghost use Rattle.model.specs.Walks.{location_weight, built_pairs, cell_need, cells_ok, in_shape};
ghost use Rattle.model.specs.Promises.{ChecksTable};
ghost use Rattle.shape.specs.Ranges.{InRange, sizes_in_range, counts_ok, long_ok, rows_ok, resets_ok};

use crate::verdicts::verdicts_ok;
use edges::{power, sizes_ok};
use model::{Built, Fault, MOST_CONSTANT, MOST_PAIRS, MOST_ROWS, ROW_LENGTH, ROW_WIDTH, Refused};
use tables::Table;

mod verdicts;

// A built record with L, S and K in their ranges and cm at most 30: what the further checks compute of it fits. It has
// the weight of a location in a code, which two of them ask for.
#[derive(Clone, Copy)]
pub(crate) struct Sizes {
    pub(crate) built: Built,
    weight: usize,
    ghost in_range: { InRange built },
    ghost weighs: { weight ≡ location_weight built },
}

impl Sizes {
    // (cm + 2) ^ K, the weight of a location in a code.
    pub(crate) fn location_weight(self) -> usize
        ensures { result ≡ location_weight self.built }
    {
        self.weight
    }

    // N, the number of pairs of a location and bases.
    pub(crate) fn pair_count(self) -> u32
        ensures { result ≡ built_pairs self.built }
    {
        let pairs = self.built.locations as usize * self.location_weight();
        pairs as u32
    }

    // R · S · W, the cells that the rows need.
    pub(crate) fn cell_need(self) -> usize
        ensures { result ≡ cell_need self.built }
    {
        self.built.rows as usize * (self.built.symbols as usize * (2 * self.built.top as usize + 2))
    }

    // Cells and pool no shorter than R and P need.
    pub(crate) fn long_enough(self, cells: &[u32], pool: &[u32]) -> bool
        ensures { result ≡ long_ok self.built cells.now pool.now }
    {
        self.cell_need() <= cells.len() && self.built.total as usize <= pool.len()
    }
}

// L, S and K in their ranges, cm at most 30.
pub(crate) fn sizes_in_range(built: Built) -> Option<Sizes>
    ensures { MatchOption result (sizes_in_range built ≡ false)
        (λ s. (s.built ≡ built) × (sizes_in_range built ≡ true)) }
{
    if !sizes_ok(
        built.locations as usize,
        built.symbols as usize,
        built.clocks as usize,
    ) {
        return None;
    }
    if MOST_CONSTANT < built.top as usize {
        return None;
    }
    let weight = power(built.top as usize + 2, built.clocks as usize);
    Some(Sizes { built, weight })
}

// N at most 65,536, R from 1 to 4,096.
pub(crate) fn counts_ok(pairs: u32, rows: u32) -> bool
    ensures { result ≡ counts_ok pairs rows }
{
    pairs <= MOST_PAIRS as u32 && 1 <= rows && rows <= MOST_ROWS as u32
}

// As many rows as R: a row starts where the one before it ends, row 0 at 0; the lengths add up to P.
pub(crate) fn rows_chain(count: u32, total: u32, rows: &[u32]) -> bool
    ensures { result ≡ rows_ok count rows.now total }
{
    let need = ROW_WIDTH * count as usize;
    if rows.len() < need {
        return false;
    }
    let mut end: usize = 0;
    for row in rows[..need].chunks_exact(ROW_WIDTH) {
        if row[0] as usize != end {
            return false;
        }
        end += row[ROW_LENGTH] as usize;
    }
    end == total as usize
}

// All are looked at, whatever is found: with no way out of its loop the compiler takes several at a time.
pub(crate) fn codes_below(limit: u32, codes: &[u32]) -> bool
    ensures { result ≡ all_below limit codes.now }
{
    let mut below = true;
    for code in codes {
        if limit <= *code {
            below = false;
        }
    }
    below
}

// No timer reset at an odd interval number. W is even, so an interval number is odd where the cell's place is.
pub(crate) fn resets_ok(cells: &[u32]) -> bool
    ensures { result ≡ resets_ok 0 cells.now }
{
    let mut none = true;
    for pair in cells.chunks_exact(2) {
        if pair[1] % 2 == 1 {
            none = false;
        }
    }
    none
}

// Every cell's row below R, no timer reset at an odd interval number. `&&`, not `&`: a table that is refused for a
// cell's row is gone over once.
pub(crate) fn cells_ok(rows: u32, cells: &[u32]) -> bool
    requires { rows ≤ most_rows }
    ensures { (cm : ℕ) → result ≡ cells_ok 0 (interval_count cm) rows cells.now }
{
    codes_below(2 * rows, cells) && resets_ok(cells)
}

// Every condition.
pub fn in_shape(table: Table<'_>) -> bool
    ensures { result ≡ in_shape (table_in table.entry) }
{
    let Some(sizes) = sizes_in_range(table.built) else {
        return false;
    };
    let pairs = sizes.pair_count();
    if !counts_ok(pairs, table.built.rows) {
        return false;
    }
    if !sizes.long_enough(table.cells, table.pool) {
        return false;
    }
    if !rows_chain(table.built.rows, table.built.total, table.rows) {
        return false;
    }
    let total = table.built.total as usize;
    if !codes_below(pairs, &table.pool[..total]) {
        return false;
    }
    let need = sizes.cell_need();
    if !cells_ok(table.built.rows, &table.cells[..need]) {
        return false;
    }
    verdicts_ok(sizes, table.rows, table.pool)
}

// 25, the built record or its tables out of shape.
#[tactic(auto, unfolding(model::specs::Walks::shape_refusal))]
pub fn check_table(table: Table<'_>) -> Result<(), Refused>
    ensures { ChecksTable table.entry.built table.entry.cells.now table.entry.rows.now
        table.entry.pool.now (answer_in (λ u. 0) result) }
{
    if !in_shape(table) {
        return Err(Fault::OutOfShape.into());
    }
    Ok(())
}
