// A built table: its record and the three lent tables; and its rows by place: where a row's codes start in the pool,
// how many they are, and the verdict that it stores.
// Total: a place past the end of a table holds 0, as in the definitions.
#![tactic(auto)]

ghost use Rattle.std.specs.Prelude.{◌≡◌, ◌^◌, ◌<◌};
ghost use Rattle.model.specs.Walks.{built_width};
ghost use Rattle.model.specs.Tables.{row_start, row_length, row_verdict};

use model::{Built, ROW_LENGTH, ROW_VERDICT, ROW_WIDTH};
use numbers::at_or;

#[derive(Clone, Copy)]
pub struct Table<'a> {
    pub built: Built,
    pub cells: &'a [u32],
    pub rows: &'a [u32],
    pub pool: &'a [u32],
}

impl Table<'_> {
    // W, the intervals of the timer.
    pub fn width(self) -> usize
        ensures { result ≡ built_width self.entry.built }
    {
        2 * self.built.top as usize + 2
    }

    // Where the codes of a row start in the pool.
    pub fn row_start(self, row: u32) -> usize
        ensures { (result ≡ row_start self.entry.rows.now row) × (result < 2 ^ 32) }
    {
        at_or(self.rows, ROW_WIDTH * row as usize, 0) as usize
    }

    // How many codes a row has.
    pub fn row_length(self, row: u32) -> usize
        ensures { (result ≡ row_length self.entry.rows.now row) × (result < 2 ^ 32) }
    {
        at_or(self.rows, ROW_WIDTH * row as usize + ROW_LENGTH, 0) as usize
    }

    // The number that a row stores for its verdict.
    pub fn row_verdict(self, row: u32) -> u32
        ensures { result ≡ row_verdict self.entry.rows.now row }
    {
        at_or(self.rows, ROW_WIDTH * row as usize + ROW_VERDICT, 0)
    }
}
