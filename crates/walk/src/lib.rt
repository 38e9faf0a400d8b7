// The walk of the one timer over a table: its step, a row's verdict, and the table runner.
// The step and the verdict are total: a place past a table's end holds 0, as in the definitions.
#![tactic(auto)]

ghost use Rattle.std.specs.Prelude.{◌≡◌};
ghost use Rattle.model.specs.Basics.{one_if};
ghost use Rattle.model.specs.Faults.{answer_in};
ghost use Rattle.model.specs.Promises.{RunsTable};
ghost use Rattle.model.specs.Walks.{cell_at, verdict};
ghost use Rattle.model.specs.Words.{events_of};
ghost use Rattle.tables.specs.Views.{table_in};
ghost use Rattle.walk.specs.Steps.{Steps, row_after};

use interval::Interval;
use model::{MOST_EVENTS, Refused, Stamp};
use numbers::at_or;
use shape::check_table;
use tables::Table;
use word::{Events, check_word};

// Where a walk stands: its row, and the stamp of the last timer reset.
#[derive(Clone, Copy)]
pub struct Walk {
    pub row: u32,
    pub reset: Stamp,
}

// The cell of a row at a symbol and an interval. A row has a line of W cells for each symbol. A place that fits no
// number is past the end of any table; to ask that of the product takes no division.
pub(crate) fn cell_at(table: Table<'_>, row: u32, symbol: u16, interval: Interval) -> u32
    ensures { result ≡ cell_at (table_in table.entry) row symbol interval.0 }
{
    let width = table.width();
    let line = row as usize * table.built.symbols as usize + usize::from(symbol);
    let Some(start) = line.checked_mul(width) else {
        return 0;
    };
    let Some(place) = start.checked_add(interval.0 as usize) else {
        return 0;
    };
    at_or(table.cells, place, 0)
}

impl Walk {
    pub const START: Walk = Walk {
        row: 0,
        reset: Stamp(0),
    };

    // One event: the cell at the timer's interval gives the next row, and moves the timer's stamp if it says so.
    #[tactic(auto, unfolding(model::specs::Walks::step))]
    pub fn step(self, table: Table<'_>, grain: u32, symbol: u16, stamp: Stamp) -> Walk
        ensures { Steps (table_in table.entry) grain self symbol stamp result }
    {
        let age = stamp.since(self.reset);
        let interval = Interval::of(age, table.built.top, grain);
        let cell = cell_at(table, self.row, symbol, interval);
        let row = cell / 2;
        let reset = if cell % 2 == 1 { stamp } else { self.reset };
        Walk { row, reset }
    }
}

// A row's verdict is the one that it stores.
#[tactic(auto, unfolding(model::specs::Walks::verdict))]
pub fn verdict(table: Table<'_>, row: u32) -> bool
    ensures { result ≡ verdict (table_in table.entry) row }
{
    table.row_verdict(row) == 1
}

// The row after all events.
#[tactic(auto, unfolding(model::specs::Walks::step, model::specs::Walks::step_all))]
pub(crate) fn walk_all(table: Table<'_>, grain: u32, events: Events<'_>) -> u32
    ensures { result ≡ row_after (table_in table.entry) grain
        (events_of events.entry.symbols.now events.entry.stamps.now) }
{
    let mut walk = Walk::START;
    for (i, symbol) in events.symbols.iter().enumerate() {
        walk = walk.step(table, grain, *symbol, Stamp(events.stamps[i]));
    }
    walk.row
}

// 25, then 30 to 33, then the verdict of the row after all events.
#[tactic(auto, unfolding(model::specs::Promises::run_refusal, model::specs::Walks::table_accepts))]
pub fn run_table(
    table: Table<'_>,
    grain: u32,
    symbols: &[u16],
    stamps: &[u32],
) -> Result<bool, Refused>
    ensures { RunsTable table.entry.built table.entry.cells.now table.entry.rows.now table.entry.pool.now grain
        symbols.now stamps.now (answer_in one_if result) }
{
    check_table(table)?;
    let events = check_word(
        table.built.symbols,
        grain,
        MOST_EVENTS as u32,
        symbols,
        stamps,
    )?;
    let row = walk_all(table, grain, events);
    let yes = verdict(table, row);
    Ok(yes)
}
