// What C and Rust link: every public entry under a C name, with the promise of the function that it calls.
// Records cross by value, a lent table as pointer and length, the follower kept in place as one pointer. C passes the
// parts of a rule or a table one by one, and a refusal goes back as its number and place: both are so here alone.
#![tactic(auto)]

ghost use Rattle.model.specs.Promises.{ChecksRule, ChecksWord, ChecksTable, ReadsRule, WritesRule, BuildsTable};
ghost use Rattle.model.specs.Promises.{RunsExact, RunsTable, StartsFollower, FollowsEvent, FollowsInPlace, Decides};
ghost use Rattle.model.specs.Promises.{GivesNext, ChecksInclusion, CountsShares};
ghost use Rattle.model.specs.Tables.{tables};
ghost use Rattle.head_library.specs.Lent.{RunsBranchesInto};

use crate::records::{branch_of, followed, found_of, moved, next_of, shares_of};
use edges::StoredRule;
use model::{
    Answer, Batch, Building, Built, Followed, Follower, Head, Inclusion, Listed,
    MOST_BRANCH_EVENTS, Moved, Next, Reading, Shares, Size, Stamp, Started,
};
use tables::Table;

mod records;

// The branch runner's answer, its edges in a lent array.
#[repr(C)]
#[derive(Clone, Copy)]
pub struct BranchAnswer {
    pub number: u8,
    pub place: usize,
    pub found: bool,
    pub start: u16,
    pub held: bool,
    pub position: usize,
}

#[unsafe(no_mangle)]
pub extern "C" fn alderskein_check_rule(head: Head, edges: &[u16]) -> Answer
    ensures { ChecksRule head edges.now result }
{
    rule::check_rule(StoredRule { head, edges })
        .map(|_| 0)
        .into()
}

#[unsafe(no_mangle)]
pub extern "C" fn alderskein_read_rule(file: &[u8], edges: &mut [u16]) -> Reading
    ensures { ReadsRule file.now edges.old edges.new result }
{
    reader::read_rule(file, edges).into()
}

#[unsafe(no_mangle)]
pub extern "C" fn alderskein_write_rule(head: Head, edges: &[u16], out: &mut [u8]) -> Answer
    ensures { WritesRule head edges.now out.old out.new result }
{
    writer::write_rule(StoredRule { head, edges }, out).into()
}

#[unsafe(no_mangle)]
pub extern "C" fn alderskein_check_word(
    symbol_count: u32,
    grain: u32,
    most: u32,
    symbols: &[u16],
    stamps: &[u32],
) -> Answer
    ensures { ChecksWord symbol_count grain most symbols.now stamps.now result }
{
    word::check_word(symbol_count, grain, most, symbols, stamps)
        .map(|_| 0)
        .into()
}

#[unsafe(no_mangle)]
pub extern "C" fn alderskein_build_table(
    head: Head,
    edges: &[u16],
    scratch: &mut [u32],
    cells: &mut [u32],
    rows: &mut [u32],
    pool: &mut [u32],
) -> Building
    ensures { BuildsTable head edges.now scratch.old scratch.new cells.old
        cells.new rows.old rows.new pool.old pool.new result }
{
    construct::build_table(StoredRule { head, edges }, scratch, cells, rows, pool).into()
}

#[unsafe(no_mangle)]
pub extern "C" fn alderskein_check_table(
    built: Built,
    cells: &[u32],
    rows: &[u32],
    pool: &[u32],
) -> Answer
    ensures { ChecksTable built cells.now rows.now pool.now result }
{
    let table = Table {
        built,
        cells,
        rows,
        pool,
    };
    shape::check_table(table).map(|_| 0).into()
}

#[unsafe(no_mangle)]
pub extern "C" fn alderskein_run_table(
    built: Built,
    cells: &[u32],
    rows: &[u32],
    pool: &[u32],
    grain: u32,
    symbols: &[u16],
    stamps: &[u32],
) -> Answer
    ensures { RunsTable built cells.now rows.now pool.now grain symbols.now
        stamps.now result }
{
    let table = Table {
        built,
        cells,
        rows,
        pool,
    };
    walk::run_table(table, grain, symbols, stamps)
        .map(usize::from)
        .into()
}

#[unsafe(no_mangle)]
pub extern "C" fn alderskein_run_exact(
    head: Head,
    edges: &[u16],
    grain: u32,
    symbols: &[u16],
    stamps: &[u32],
    scratch: &mut [u32],
) -> Answer
    ensures { RunsExact head edges.now grain symbols.now stamps.now
        scratch.old scratch.new result }
{
    exact::run_exact(StoredRule { head, edges }, grain, symbols, stamps, scratch)
        .map(usize::from)
        .into()
}

#[unsafe(no_mangle)]
pub extern "C" fn alderskein_run_branches(
    head: Head,
    edges: &[u16],
    grain: u32,
    symbols: &[u16],
    stamps: &[u32],
    taken: &mut [u16; MOST_BRANCH_EVENTS],
) -> BranchAnswer
    ensures { RunsBranchesInto head edges.now grain symbols.now stamps.now
        taken.new result }
{
    let run = branch_of(branch::run_branches(StoredRule { head, edges }, grain, symbols, stamps));
    let run_edges = run.edges;
    *taken = run_edges;
    BranchAnswer {
        number: run.number,
        place: run.place,
        found: run.found,
        start: run.start,
        held: run.held,
        position: run.position,
    }
}

#[unsafe(no_mangle)]
pub extern "C" fn alderskein_start_follower(grain: u32) -> Started
    ensures { StartsFollower grain result }
{
    follower::start_follower(grain).into()
}

#[unsafe(no_mangle)]
pub extern "C" fn alderskein_follow_event(
    follower: Follower,
    built: Built,
    cells: &[u32],
    rows: &[u32],
    pool: &[u32],
    symbol: u16,
    stamp: Stamp,
) -> Followed
    ensures { FollowsEvent follower built cells.now rows.now pool.now symbol stamp result }
{
    let table = Table {
        built,
        cells,
        rows,
        pool,
    };
    followed(
        follower,
        follower::follow_event(follower, table, symbol, stamp),
    )
}

// The head's own record, brought forward where it is kept.
#[unsafe(no_mangle)]
pub extern "C" fn alderskein_follow_in_place(
    follower: &mut Follower,
    built: Built,
    cells: &[u32],
    rows: &[u32],
    pool: &[u32],
    symbol: u16,
    stamp: Stamp,
) -> Moved
    ensures { FollowsInPlace follower.old follower.new built cells.now rows.now
        pool.now symbol stamp result }
{
    let table = Table {
        built,
        cells,
        rows,
        pool,
    };
    moved(follower::follow_in_place(follower, table, symbol, stamp))
}

#[unsafe(no_mangle)]
pub extern "C" fn alderskein_decide(
    file: &[u8],
    edges: &mut [u16],
    scratch: &mut [u32],
    cells: &mut [u32],
    rows: &mut [u32],
    pool: &mut [u32],
    grain: u32,
    symbols: &[u16],
    stamps: &[u32],
) -> Answer
    ensures { Decides file.now edges.old edges.new scratch.old
        scratch.new cells.old cells.new rows.old rows.new
        pool.old pool.new grain symbols.now stamps.now result }
{
    verdict::decide(
        file, edges, scratch, cells, rows, pool, grain, symbols, stamps,
    )
    .map(usize::from)
    .into()
}

#[unsafe(no_mangle)]
pub extern "C" fn alderskein_next_word(size: Size, word: Listed) -> Next
    ensures { GivesNext size word result }
{
    next_of(word, lists::next_word(size, word))
}

#[unsafe(no_mangle)]
pub extern "C" fn alderskein_check_inclusion(
    first: Built,
    cells: &[u32],
    rows: &[u32],
    pool: &[u32],
    second: Built,
    cells2: &[u32],
    rows2: &[u32],
    pool2: &[u32],
    scratch: &mut [u32],
    symbols: &mut [u16],
    stamps: &mut [u32],
) -> Inclusion
    ensures { ChecksInclusion (tables first cells.now rows.now pool.now)
        (tables second cells2.now rows2.now pool2.now) scratch.old
        scratch.new symbols.old symbols.new stamps.old
        stamps.new result }
{
    let one = Table {
        built: first,
        cells,
        rows,
        pool,
    };
    let other = Table {
        built: second,
        cells: cells2,
        rows: rows2,
        pool: pool2,
    };
    found_of(inclusion::check_inclusion(one, other, scratch, symbols, stamps))
}

#[unsafe(no_mangle)]
pub extern "C" fn alderskein_count_shares(
    batch: Batch,
    cells: &[u32],
    rows: &[u32],
    pool: &[u32],
    events: u32,
    seconds: u32,
) -> Shares
    ensures { CountsShares batch cells.now rows.now pool.now events seconds result }
{
    shares_of(shares::count_shares(batch, cells, rows, pool, events, seconds))
}
