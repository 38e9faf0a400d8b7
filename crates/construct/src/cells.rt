// Cells, by row, symbol and interval; the rows that they lead to are numbered as they are found.
// The lent tables go one by one: behind a struct of references each contract would have to say that lengths stay.
ghost use Rattle.std.specs.Prelude.{◌≡◌, ◌+◌, ◌*◌, ◌^◌, ◌<◌};
ghost use Rattle.model.specs.Basics.{one_if};
ghost use Rattle.model.specs.Construction.{width, most_rows};
ghost use Rattle.construct.specs.Marks.{rule_by};
ghost use Rattle.construct.specs.Rows.{rows_in, says_by, finals_of};
ghost use Rattle.construct.specs.Cells.{CanLeave, CellMade, CanFill, SymbolFilled, RowFilled, CanFillAll};
ghost use Rattle.construct.specs.Cells.{AllFilled};

use crate::rows::{Known, place_marks};
use crate::{Filled, Finals, Plan, Progress};
use model::Fault;
use pairs::Input;

// Next row · 2, plus 1 if the timer is reset.
fn cell_of(row: usize, timer: bool) -> u32
    requires { row < most_rows }
    ensures { result ≡ 2 * row + one_if timer }
{
    2 * row as u32 + u32::from(timer)
}

// The place of a row's first cell at a symbol: (row · S + symbol) · W.
fn place_of(row: usize, symbols: usize, symbol: usize, width: usize) -> usize
    requires { (row < most_rows) × (symbols < 2 ^ 16) × (symbol < 2 ^ 16) × (width < 2 ^ 16) }
    ensures { result ≡ (row * symbols + symbol) * width }
{
    (row * symbols + symbol) * width
}

impl Plan<'_> {
    // W, the intervals of the timer.
    pub(crate) fn width(self) -> usize
        ensures { (result ≡ width (rule_by self.entry)) × (result < 2 ^ 10) }
    {
        2 * usize::from(self.scale.top) + 2
    }

    // What the rows' verdicts are worked out by.
    pub(crate) fn finals(self) -> Finals
        ensures { result ≡ finals_of self.entry }
    {
        Finals {
            weight: self.scale.weight,
            ends: self.rule.head.ends,
        }
    }

    // The cell of a row at a symbol and an interval; the row that it leads to is numbered if it is new.
    fn make_cell(
        self,
        row: usize,
        input: Input,
        marks: &mut [u32],
        rows: &mut [u32],
        pool: &mut [u32],
        p: Progress,
    ) -> Result<Filled, Fault>
        requires { CanLeave (says_by (finals_of self)) (rule_by self) marks.old rows.old pool.old p row }
        ensures { CellMade (says_by (finals_of self.entry)) (rule_by self.entry) row input
            (rows_in p.rows rows.old pool.old) p.room marks.old marks.new
            rows.new pool.new result }
    {
        let known = Known {
            rows,
            pool,
            count: p.rows,
        };
        let marked = self.mark_next(input, known.codes(row), marks);
        let progress = place_marks(marks, marked.span, self.finals(), rows, pool, p)?;
        Ok(Filled {
            cell: cell_of(progress.last, marked.timer),
            progress,
        })
    }

    // The cells of a row at a symbol, interval by interval. Neighbours mostly lead to the same row, which is therefore
    // looked at first.
    fn fill_symbol(
        self,
        row: usize,
        symbol: u32,
        marks: &mut [u32],
        cells: &mut [u32],
        rows: &mut [u32],
        pool: &mut [u32],
        p: Progress,
    ) -> Result<Progress, Fault>
        requires can_fill { CanFill (says_by (finals_of self)) (rule_by self) marks.old
            cells.old rows.old pool.old p row }
        requires symbol_lt_symbols { symbol < self.rule.head.symbols }
        ensures { SymbolFilled (says_by (finals_of self.entry)) (rule_by self.entry) row symbol
            (rows_in p.rows rows.old pool.old) p.room marks.old marks.new
            cells.old cells.new rows.new pool.new result }
    {
        let width = self.width();
        let at = place_of(row, self.rule.head.symbols as usize, symbol as usize, width);
        let mut progress = p;
        for i in 0..width {
            let input = Input {
                symbol,
                interval: i as u32,
            };
            let filled = self.make_cell(row, input, marks, rows, pool, progress)?;
            progress = filled.progress;
            cells[at + i] = filled.cell;
        }
        Ok(progress)
    }

    // The cells of a row, symbol by symbol.
    fn fill_row(
        self,
        row: usize,
        marks: &mut [u32],
        cells: &mut [u32],
        rows: &mut [u32],
        pool: &mut [u32],
        p: Progress,
    ) -> Result<Progress, Fault>
        requires { CanFill (says_by (finals_of self)) (rule_by self) marks.old
            cells.old rows.old pool.old p row }
        ensures { RowFilled (says_by (finals_of self.entry)) (rule_by self.entry) row
            (rows_in p.rows rows.old pool.old) p.room marks.old marks.new
            cells.old cells.new rows.new pool.new result }
    {
        let mut progress = p;
        for symbol in 0..self.rule.head.symbols {
            progress = self.fill_symbol(row, symbol, marks, cells, rows, pool, progress)?;
        }
        Ok(progress)
    }

    // All rows, as they are found: their count grows as the loop runs, so it is no range.
    pub(crate) fn fill_rows(
        self,
        marks: &mut [u32],
        cells: &mut [u32],
        rows: &mut [u32],
        pool: &mut [u32],
        p: Progress,
    ) -> Result<Progress, Fault>
        requires { CanFillAll (says_by (finals_of self)) (rule_by self) marks.old
            cells.old rows.old pool.old p }
        ensures { AllFilled (says_by (finals_of self.entry)) (rule_by self.entry) p.room marks.old
            marks.new cells.old cells.new rows.new pool.new result }
    {
        let mut progress = p;
        let mut row: usize = 0;
        while row < progress.rows {
            progress = self.fill_row(row, marks, cells, rows, pool, progress)?;
            row += 1;
        }
        Ok(progress)
    }
}
