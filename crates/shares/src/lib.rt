// How much of the list a rule allows: for each table of a batch the words accepted, by length and in all, as shares.
#![tactic(auto)]

ghost use Rattle.std.specs.Prelude.{◌≡◌, ◌*◌, ◌≤◌, MatchResult, length, drop};
ghost use Rattle.model.specs.Basics.{zeros, filled};
ghost use Rattle.model.specs.Tables.{tables, row_width};
ghost use Rattle.model.specs.Walks.{cell_need};
ghost use Rattle.model.specs.Lists.{most_listed_events, most_seconds};
ghost use Rattle.model.specs.Shares.{most_tables, most_words, out_of_all, line_width, line_of, lines_of, laid_out};
ghost use Rattle.model.specs.Shares.{tables_refusal};
ghost use Rattle.model.specs.Faults.{answer_in, fault_number};
ghost use Rattle.model.specs.Promises.{answer_of, CountsShares};
ghost use Rattle.tables.specs.Views.{table_in};
ghost use Rattle.shares.specs.Batches.{fault_of, Passed, greatest_in};
ghost use Rattle.shares.specs.Outcome.{shares_in};

use crate::lengths::{is_long, list_lengths, sum_of};
use crate::terms::{is_smaller, lay_share};
use crate::tree::Tree;
use lists::span_ok;
use model::{
    Batch, Built, Fault, LINE_IN_ALL, LINE_WIDTH, LINES_WIDTH, MOST_LISTED_EVENTS, MOST_TABLES,
    ROW_WIDTH, Refused, SHARE_WIDTH,
};
use shape::in_shape;
use tables::Table;

mod lengths;
mod terms;
mod tree;

// How much of the list each table of a batch allows: the table with the greatest share in all, from 1, and a line of
// numbers a table.
#[derive(Clone, Copy)]
pub struct Counts {
    pub greatest: u32,
    pub lines: [u32; LINES_WIDTH],
}

// m and H in their ranges.
#[derive(Clone, Copy)]
pub(crate) struct Span {
    pub(crate) events: u32,
    pub(crate) seconds: u32,
    pub(crate) ghost events_most: { events ≤ most_listed_events },
    pub(crate) ghost seconds_most: { seconds ≤ most_seconds },
}

// What is lent, from a table on.
#[derive(Clone, Copy)]
pub(crate) struct Part<'a> {
    pub(crate) cells: &'a [u32],
    pub(crate) rows: &'a [u32],
    pub(crate) pool: &'a [u32],
}

impl<'a> Part<'a> {
    // The table of a built record, whose numbers stand first.
    pub(crate) fn table(self, built: Built) -> Table<'a>
        ensures { table_in result ≡ tables built self.entry.cells.now self.entry.rows.now
            self.entry.pool.now }
    {
        Table {
            built,
            cells: self.cells,
            rows: self.rows,
            pool: self.pool,
        }
    }
}

impl<'a> Tree<'a> {
    // What is lent behind the table.
    pub(crate) fn behind(self) -> Part<'a>
        ensures cells { result.cells.now ≡ drop (cell_need self.entry.table.built) self.entry.table.cells.now }
        ensures rows { result.rows.now ≡ drop (row_width * self.entry.table.built.rows) self.entry.table.rows.now }
        ensures pool { result.pool.now ≡ drop self.entry.table.built.total self.entry.table.pool.now }
    {
        let table = self.table;
        let built = table.built;
        let need = built.rows as usize * (built.symbols as usize * self.width());
        Part {
            cells: &table.cells[need..],
            rows: &table.rows[ROW_WIDTH * built.rows as usize..],
            pool: &table.pool[built.total as usize..],
        }
    }
}

// A table in shape with a list that is not too long. 25, 43.
pub(crate) fn listed<'a>(table: Table<'a>, span: Span) -> Result<Tree<'a>, Fault>
    ensures { MatchResult result
        (λ tree. (table_in tree.table ≡ table_in table.entry)
        × (fault_of (table_in table.entry) span.events span.seconds ≡ 0))
        (λ fault. fault_number fault ≡ fault_of (table_in table.entry) span.events span.seconds) }
{
    if !in_shape(table) {
        return Err(Fault::OutOfShape);
    }
    if is_long(table.built.symbols, span.events, span.seconds) {
        return Err(Fault::LongList);
    }
    Ok(Tree { table })
}

// The first table, from 1, that has 25 or 43.
pub(crate) fn check_tables(tables: &[Built], part: Part<'_>, span: Span) -> Result<(), Refused>
    ensures { answer_in (λ u. 0) result ≡ answer_of (tables_refusal 1
        (laid_out tables.now part.entry.cells.now part.entry.rows.now part.entry.pool.now)
        span.events span.seconds) 0 }
{
    let mut rest = part;
    for (i, built) in tables.iter().enumerate() {
        match listed(rest.table(*built), span) {
            Ok(tree) => rest = tree.behind(),
            Err(fault) => {
                return Err(Refused {
                    fault,
                    place: i + 1,
                });
            }
        }
    }
    Ok(())
}

// A table's line, laid into zeros.
pub(crate) fn lay_line(tree: &Tree<'_>, span: Span, line: &mut [u32])
    requires { (out_of_all tree.now.table.built.symbols span.seconds span.events ≤ most_words)
        × (line.old ≡ zeros line_width) }
    ensures { line.new ≡ line_of (table_in tree.now.table) span.events span.seconds }
{
    let used = span.events as usize + 1;
    let mut lengths = [0u32; MOST_LISTED_EVENTS + 1];
    list_lengths(tree.table.built.symbols, span.seconds, &mut lengths[..used]);
    let mut counts = [0u32; MOST_LISTED_EVENTS + 1];
    tree.count_words(span.seconds, &mut counts[..used]);
    // By places, as `lay_lines`: after a loop over `chunks_exact_mut` nothing is known of what it wrote.
    for n in 0..used {
        let at = SHARE_WIDTH * n;
        let end = at + SHARE_WIDTH;
        lay_share(counts[n], lengths[n], &mut line[at..end]);
    }
    let accepted = sum_of(&counts[..used]);
    let words = sum_of(&lengths[..used]);
    lay_share(accepted as u32, words as u32, &mut line[LINE_IN_ALL..]);
}

// A line for each table that passed the checks, laid into zeros.
pub(crate) fn lay_lines(tables: &[Built], part: Part<'_>, span: Span, lines: &mut [u32])
    requires { Passed tables.now part.cells.now part.rows.now part.pool.now span.events span.seconds
        × (lines.old ≡ zeros (line_width * most_tables)) }
    ensures { lines.new ≡ filled (line_width * most_tables) (lines_of
        (laid_out tables.now part.entry.cells.now part.entry.rows.now part.entry.pool.now) span.events span.seconds) }
{
    let mut rest = part;
    for (i, built) in tables.iter().enumerate() {
        let tree = Tree {
            table: rest.table(*built),
        };
        let start = LINE_WIDTH * i;
        let end = start + LINE_WIDTH;
        lay_line(&tree, span, &mut lines[start..end]);
        rest = tree.behind();
    }
}

// The table with the greatest share in all, from 1, the earliest on a tie; read off the lines.
pub(crate) fn greatest_of(count: usize, lines: &[u32]) -> u32
    requires { (1 ≤ count) × (count ≤ most_tables) × (length lines.now ≡ line_width * most_tables) }
    ensures { result ≡ greatest_in count lines.now }
{
    let mut best = 0;
    // No `max_by`: on a tie it takes the later.
    for i in 1..count {
        let b = LINE_WIDTH * best + LINE_IN_ALL;
        let t = LINE_WIDTH * i + LINE_IN_ALL;
        if is_smaller(lines[b], lines[b + 1], lines[t], lines[t + 1]) {
            best = i;
        }
    }
    best as u32 + 1
}

// 40, 38, then 25 and 43 by table; then a line for each table, and which has the greatest share.
pub fn count_shares(
    batch: Batch,
    cells: &[u32],
    rows: &[u32],
    pool: &[u32],
    events: u32,
    seconds: u32,
) -> Result<Counts, Refused>
    ensures { CountsShares batch cells.now rows.now pool.now events seconds (shares_in result) }
{
    let count = batch.count as usize;
    if count < 1 || MOST_TABLES < count {
        return Err(Fault::BadBatch.into());
    }
    if !span_ok(events, seconds) {
        return Err(Fault::BadSpan.into());
    }
    let span = Span { events, seconds };
    let tables = &batch.tables[..count];
    let part = Part { cells, rows, pool };
    check_tables(tables, part, span)?;
    let mut lines = [0u32; LINES_WIDTH];
    lay_lines(tables, part, span, &mut lines);
    let greatest = greatest_of(count, &lines);
    Ok(Counts { greatest, lines })
}
