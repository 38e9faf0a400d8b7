// The build of a rule that passed 20 and 21, into a scratch that is long enough.
ghost use Rattle.std.specs.Prelude.{◌≡◌, ◌*◌, ◌/◌, ◌≤◌, length};
ghost use Rattle.model.specs.Basics.{zeros};
ghost use Rattle.model.specs.Basics.{lesser as lesser_of, quotient as quotient_of};
ghost use Rattle.model.specs.Rules.{most_pairs};
ghost use Rattle.model.specs.Construction.{most_rows};
ghost use Rattle.model.specs.Tables.{row_room, row_width, scratch_need};
ghost use Rattle.model.specs.Faults.{building_in};
ghost use Rattle.model.specs.Promises.{BuildsTable};
ghost use Rattle.construct.specs.Marks.{rule_by};
ghost use Rattle.construct.specs.Rows.{says_by, finals_of};
ghost use Rattle.construct.specs.Cells.{AllFilled};
ghost use Rattle.construct.specs.Builds.{CanPlaceStart, StartPlaced, CanBuild, built_from};

use crate::marks::mark_starts;
use crate::rows::{Wanted, add_row};
use crate::{Finals, Plan, Progress};
use bits::unmark;
use model::{Built, Fault, MOST_ROWS, ROW_WIDTH, Refused};
use numbers::quotient;

// The least of 4,096, the rows that the row table holds and those that the cell table holds cells for.
fn row_room(cells: usize, rows: usize, each: usize) -> usize
    ensures { result ≡ lesser_of most_rows (lesser_of (rows / row_width) (quotient_of cells each)) }
{
    MOST_ROWS.min((rows / ROW_WIDTH).min(quotient(cells, each)))
}

// The start row gets number 0: no row is there that it could equal.
fn place_start(
    starts: u32,
    finals: Finals,
    marks: &mut [u32],
    rows: &mut [u32],
    pool: &mut [u32],
    room: usize,
) -> Result<Progress, Fault>
    requires { CanPlaceStart starts finals.weight marks.old rows.old pool.old room }
    ensures { StartPlaced (says_by finals) starts finals.weight room marks.old marks.new
        rows.new pool.new result }
{
    let span = mark_starts(starts, finals.weight, marks);
    let none = Progress {
        rows: 0,
        total: 0,
        room,
        last: 0,
        before: 0,
    };
    let placed = add_row(Wanted { marks, span }, finals, rows, pool, none);
    unmark(marks, span);
    placed
}

fn clear_tables(cells: &mut [u32], rows: &mut [u32], pool: &mut [u32])
    ensures { (cells.new ≡ zeros (length cells.old))
        × (rows.new ≡ zeros (length rows.old))
        × (pool.new ≡ zeros (length pool.old)) }
{
    cells.fill(0);
    rows.fill(0);
    pool.fill(0);
}

impl Plan<'_> {
    // All rows and cells, into tables that hold zero.
    fn fill_tables(
        self,
        marks: &mut [u32],
        cells: &mut [u32],
        rows: &mut [u32],
        pool: &mut [u32],
    ) -> Result<Progress, Fault>
        requires { CanBuild (rule_by self) marks.old cells.old rows.old pool.old }
        ensures { AllFilled (says_by (finals_of self.entry)) (rule_by self.entry)
            (row_room (rule_by self.entry) (length cells.old) (length rows.old))
            marks.old marks.new cells.old cells.new rows.new
            pool.new result }
    {
        let each = self.rule.head.symbols as usize * self.width();
        let room = row_room(cells.len(), rows.len(), each);
        let start = place_start(
            self.rule.head.starts,
            self.finals(),
            marks,
            rows,
            pool,
            room,
        )?;
        self.fill_rows(marks, cells, rows, pool, start)
    }

    fn built_from(self, p: Progress) -> Built
        requires { (p.rows ≤ most_rows) × (p.total ≤ most_pairs * most_rows) }
        ensures { result ≡ built_from self.entry.rule.head self.entry.scale p }
    {
        let head = self.rule.head;
        Built {
            locations: head.locations,
            symbols: head.symbols,
            clocks: head.clocks,
            top: u32::from(self.scale.top),
            ends: head.ends,
            rows: p.rows as u32,
            total: p.total as u32,
        }
    }

    // 23 and 24 leave every table zero.
    pub(crate) fn build_in(
        self,
        scratch: &mut [u32],
        cells: &mut [u32],
        rows: &mut [u32],
        pool: &mut [u32],
    ) -> Result<Built, Refused>
        requires { scratch_need (rule_by self) ≤ length scratch.old }
        ensures { BuildsTable self.entry.rule.head self.entry.rule.edges.now scratch.old scratch.new cells.old
            cells.new rows.old rows.new pool.old pool.new (building_in result) }
    {
        scratch.fill(0);
        clear_tables(cells, rows, pool);
        match self.fill_tables(scratch, cells, rows, pool) {
            Ok(p) => Ok(self.built_from(p)),
            Err(fault) => {
                clear_tables(cells, rows, pool);
                Err(fault.into())
            }
        }
    }
}
