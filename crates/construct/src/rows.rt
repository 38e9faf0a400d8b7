// Rows, numbered by discovery: the row that is marked is looked for among those already numbered, code by code.
ghost use Rattle.std.specs.Prelude.{◌≡◌, ◌∷◌, ◌++◌, [], ◌+◌, ◌-◌, ◌*◌, ◌^◌, ◌≤◌, ◌<◌, length};
ghost use Rattle.model.specs.Basics.{one_if};
ghost use Rattle.model.specs.Construction.{number_of, with_row};
ghost use Rattle.model.specs.Tables.{row_start, row_length, codes_at};
ghost use Rattle.model.proofs.RowNumbers.{Placed as Apart};
ghost use Rattle.bits.specs.Bits.{codes_in, InSpan};
ghost use Rattle.construct.specs.Rows.{rows_held, rows_in, is_at, found_from, found_in, says_by, Within, Held};
ghost use Rattle.construct.specs.Rows.{Numbered, MarksNumbered};
ghost use Rattle.construct.specs.Props.{within_prop};

use crate::{Finals, Found, Progress};
use bits::{Span, all_marked, is_marked, lay_codes, unmark};
use model::{Fault, ROW_LENGTH, ROW_VERDICT, ROW_WIDTH};
use numbers::{has_bit, quotient};

// The rows numbered so far, `count` of them. A build spends most of its time in the search: its rows are known to lie
// in their tables, so no place is tested here, as `tables` does.
#[derive(Clone, Copy)]
pub(crate) struct Known<'a> {
    pub(crate) rows: &'a [u32],
    pub(crate) pool: &'a [u32],
    pub(crate) count: usize,
    pub(crate) ghost within: { Within count rows.now pool.now } by { within_prop count rows.now pool.now },
}

// The row that is marked.
#[derive(Clone, Copy)]
pub(crate) struct Wanted<'a> {
    pub(crate) marks: &'a [u32],
    pub(crate) span: Span,
    pub(crate) ghost in_span: { InSpan marks.now span },
}

impl<'a> Known<'a> {
    // Where the codes of a row start in the pool.
    fn start(self, row: usize) -> usize
        requires { row < self.count }
        ensures { (result ≡ row_start self.entry.rows.now row) × (result < 2 ^ 32) }
    {
        self.rows[ROW_WIDTH * row] as usize
    }

    // How many codes it has.
    fn length(self, row: usize) -> usize
        requires { row < self.count }
        ensures { (result ≡ row_length self.entry.rows.now row) × (result < 2 ^ 32) }
    {
        self.rows[ROW_WIDTH * row + ROW_LENGTH] as usize
    }

    // Its codes.
    pub(crate) fn codes(self, row: usize) -> &'a [u32]
        requires { row < self.count }
        ensures { result.now ≡ codes_at self.entry.rows.now self.entry.pool.now row }
    {
        let start = self.start(row);
        let end = start + self.length(row);
        &self.pool[start..end]
    }

    // The row, from number `low` on and below `high`, that holds exactly the codes that are marked: rows of another
    // length are passed over, a row of this length is left at its first code that is not marked. Document 01 fixes the
    // loops: a label on the inner, the outer yields the row by a break.
    fn find_row(self, low: usize, high: usize, wanted: Wanted<'_>) -> Found
        requires { high ≤ self.count }
        ensures { result ≡ found_from low (codes_in wanted.entry.marks.now)
            (rows_held (high - low) low self.entry.rows.now self.entry.pool.now) }
    {
        let mut row = low;
        loop {
            if high <= row {
                break Found::Nothing;
            }
            if self.length(row) == wanted.span.count {
                let start = self.start(row);
                let mut j: usize = 0;
                'codes: while j < wanted.span.count {
                    if !is_marked(wanted.marks, self.pool[start + j] as usize) {
                        break 'codes;
                    }
                    j += 1;
                }
                if j == wanted.span.count {
                    break Found::At(row);
                }
            }
            row += 1;
        }
    }

    // The same among all rows, of which no two are equal: from `from` on, then those before it.
    fn find_from(self, from: usize, wanted: Wanted<'_>) -> Found
        requires { Apart (rows_in self.count self.rows.now self.pool.now) }
        ensures { result ≡ found_in (codes_in wanted.entry.marks.now)
            (rows_in self.entry.count self.entry.rows.now self.entry.pool.now) }
    {
        let middle = from.min(self.count);
        let found = self.find_row(middle, self.count, wanted);
        let Found::At(row) = found else {
            return self.find_row(0, middle, wanted);
        };
        Found::At(row)
    }

    // Does row `row` have a number, and does it hold exactly the codes that are marked?
    fn is_row(self, row: usize, wanted: Wanted<'_>) -> bool
        ensures { result ≡ is_at row (codes_in wanted.entry.marks.now)
            (rows_in self.entry.count self.entry.rows.now self.entry.pool.now) }
    {
        if self.count <= row || self.length(row) != wanted.span.count {
            return false;
        }
        all_marked(wanted.marks, self.codes(row))
    }
}

// What codes say, 1 for yes: does one stand at a final location?
fn row_says(codes: &[u32], finals: Finals) -> u32
    ensures { result ≡ one_if (says_by finals codes.now) }
{
    let weight = finals.weight as usize;
    let ends = finals.ends as usize;
    let says = codes
        .iter()
        .any(|code| has_bit(ends, quotient(*code as usize, weight)));
    u32::from(says)
}

// Gives the row that is marked, which no row equals, the next number: 23 where there is no room for it, else 24 where
// the pool is too short. Its codes go straight into the pool.
pub(crate) fn add_row(
    wanted: Wanted<'_>,
    finals: Finals,
    rows: &mut [u32],
    pool: &mut [u32],
    p: Progress,
) -> Result<Progress, Fault>
    requires held { Held (says_by finals) rows.old pool.old p }
    requires pool_value { number_of (codes_in wanted.marks.now) (rows_in p.rows rows.old pool.old) ≡ p.rows }
    ensures { Numbered (says_by finals) p.room
        (rows_in p.rows rows.old pool.old ++ (codes_in wanted.entry.marks.now ∷ [])) p.rows
        rows.new pool.new result }
{
    let row = p.rows;
    let total = p.total;
    let size = wanted.span.count;
    if p.room <= row {
        return Err(Fault::NoRoomForRow);
    }
    if pool.len() - total < size {
        return Err(Fault::NoRoomForCodes);
    }
    let end = total + size;
    lay_codes(wanted.marks, wanted.span, &mut pool[total..end]);
    rows[ROW_WIDTH * row] = total as u32;
    rows[ROW_WIDTH * row + ROW_LENGTH] = size as u32;
    rows[ROW_WIDTH * row + ROW_VERDICT] = row_says(&pool[total..end], finals);
    Ok(Progress {
        rows: row + 1,
        total: end,
        room: p.room,
        last: row,
        before: p.last,
    })
}

// The number of the row that is marked: if an equal row has a number that one, else the next. The row that was placed
// last is looked at first, where it is right no search is made; a search begins at the one before. Both may be any
// number.
fn place_row(
    wanted: Wanted<'_>,
    finals: Finals,
    rows: &mut [u32],
    pool: &mut [u32],
    p: Progress,
) -> Result<Progress, Fault>
    requires { Held (says_by finals) rows.old pool.old p }
    ensures { Numbered (says_by finals) p.room
        (with_row (codes_in wanted.entry.marks.now) (rows_in p.rows rows.old pool.old))
        (number_of (codes_in wanted.entry.marks.now) (rows_in p.rows rows.old pool.old))
        rows.new pool.new result }
{
    let known = Known {
        rows,
        pool,
        count: p.rows,
    };
    if known.is_row(p.last, wanted) {
        return Ok(p);
    }
    let found = known.find_from(p.before, wanted);
    let Found::At(row) = found else {
        return add_row(wanted, finals, rows, pool, p);
    };
    Ok(Progress {
        last: row,
        before: p.last,
        ..p
    })
}

// The same; the marks are then taken away.
pub(crate) fn place_marks(
    marks: &mut [u32],
    span: Span,
    finals: Finals,
    rows: &mut [u32],
    pool: &mut [u32],
    p: Progress,
) -> Result<Progress, Fault>
    requires in_span { InSpan marks.old span }
    requires held { Held (says_by finals) rows.old pool.old p }
    ensures { MarksNumbered (says_by finals) p.room
        (with_row (codes_in marks.old) (rows_in p.rows rows.old pool.old))
        (number_of (codes_in marks.old) (rows_in p.rows rows.old pool.old))
        marks.old marks.new rows.new pool.new result }
{
    let placed = place_row(Wanted { marks, span }, finals, rows, pool, p);
    unmark(marks, span);
    placed
}
