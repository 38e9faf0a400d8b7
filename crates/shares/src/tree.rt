// The tree of a table's list, walked once: each word costs one cell and one stored verdict, whatever its length. The
// children of a word are those one event longer; what is accepted is counted by length.
ghost use Rattle.std.specs.Prelude.{◌≡◌, true, ◌-◌, ◌%◌, ◌≤◌, ◌<◌, eqb, get_or};
ghost use Rattle.model.specs.Basics.{pick};
ghost use Rattle.model.specs.Construction.{interval_of};
ghost use Rattle.model.specs.Tables.{row_verdict};
ghost use Rattle.model.specs.Walks.{built_width, cell_place, in_shape};
ghost use Rattle.model.specs.Lists.{list_grain};
ghost use Rattle.tables.specs.Views.{table_in};
ghost use Rattle.shares.specs.Tree.{Sized, Celled, Rowed, tree_count, Node, Roomy, Tallied, Countable, Counted};

use model::{LIST_GRAIN, ROW_VERDICT, ROW_WIDTH};
use tables::Table;

// A table in shape: every cell that its walk reads is there and leads to a row that is there.
#[derive(Clone, Copy)]
pub(crate) struct Tree<'a> {
    pub(crate) table: Table<'a>,
    pub(crate) ghost shape: { in_shape (table_in table) ≡ true },
    pub(crate) ghost sized: { Sized table.built },
    pub(crate) ghost celled: { Celled table.built table.cells.now },
    pub(crate) ghost rowed: { Rowed table.built table.rows.now },
}

// The stamp of the last timer reset after an event.
pub(crate) fn reset_after(cell: usize, reset: usize, stamp: usize) -> usize
    ensures { result ≡ pick (eqb (cell % 2) 1) stamp reset }
{
    if cell % 2 == 1 { stamp } else { reset }
}

impl Tree<'_> {
    // W
    pub(crate) fn width(&self) -> usize
        ensures { result ≡ built_width self.now.table.built }
    {
        self.table.width()
    }

    // The timer's interval of an age in half seconds: that age itself, up to the last interval.
    pub(crate) fn interval_at(&self, age: usize) -> usize
        ensures { (result ≡ interval_of self.now.table.built.top list_grain age)
            × (result < built_width self.now.table.built) }
    {
        age.min(self.width() - 1)
    }

    // The cell of a row at a symbol and an interval.
    pub(crate) fn cell_of(&self, row: usize, symbol: usize, interval: usize) -> usize
        requires { (row < self.now.table.built.rows) × (symbol < self.now.table.built.symbols)
            × (interval < built_width self.now.table.built) }
        ensures { result ≡ get_or self.now.table.cells.now
            (cell_place self.now.table.built row symbol interval) 0 }
    {
        let at = (row * self.table.built.symbols as usize + symbol) * self.width() + interval;
        self.table.cells[at] as usize
    }

    // The verdict that a row stores, 1 for yes.
    pub(crate) fn stored_at(&self, row: usize) -> u32
        requires { row < self.now.table.built.rows }
        ensures { (result ≡ row_verdict self.now.table.rows.now row) × (result ≤ 1) }
    {
        self.table.rows[ROW_WIDTH * row + ROW_VERDICT]
    }

    // The accepted words one event below a node.
    pub(crate) fn leaves(&self, stamps: usize, row: usize, reset: usize, from: usize) -> u32
        requires { Node self.now.table.built stamps row reset from }
        ensures { result ≡ tree_count (table_in self.now.table) row reset 1 (stamps - from) from }
    {
        let symbols = self.table.built.symbols as usize;
        let mut here = 0;
        for stamp in from..stamps {
            let interval = self.interval_at(stamp - reset);
            for symbol in 0..symbols {
                let cell = self.cell_of(row, symbol, interval);
                here += self.stored_at(cell / 2);
            }
        }
        here
    }

    // Adds the accepted words below a node: at place 0 those of one event, then of two, and so on.
    pub(crate) fn tally(
        &self,
        stamps: usize,
        row: usize,
        reset: usize,
        from: usize,
        counts: &mut [u32],
    )
        requires { Node self.now.table.built stamps row reset from
            × Roomy (table_in self.now.table) stamps row reset from counts.old }
        ensures { Tallied (table_in self.now.table) stamps row reset from
            counts.old counts.new }
    {
        let symbols = self.table.built.symbols as usize;
        let mut here = 0;
        for stamp in from..stamps {
            let interval = self.interval_at(stamp - reset);
            for symbol in 0..symbols {
                let cell = self.cell_of(row, symbol, interval);
                let next = cell / 2;
                here += self.stored_at(next);
                if 1 < counts.len() {
                    let since = reset_after(cell, reset, stamp);
                    if counts.len() == 2 {
                        counts[1] += self.leaves(stamps, next, since, stamp);
                    } else {
                        self.tally(stamps, next, since, stamp, &mut counts[1..]);
                    }
                }
            }
        }
        counts[0] += here;
    }

    // The accepted words of a table's list by length, place n for n events.
    pub(crate) fn count_words(&self, seconds: u32, counts: &mut [u32])
        requires { Countable self.now.table.built.symbols seconds counts.old }
        ensures { Counted (table_in self.now.table) seconds counts.old counts.new }
    {
        counts[0] = self.stored_at(0);
        if 1 < counts.len() {
            let stamps = LIST_GRAIN * seconds as usize + 1;
            self.tally(stamps, 0, 0, 0, &mut counts[1..]);
        }
    }
}
