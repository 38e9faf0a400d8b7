// The follower: one timer over a table, brought forward event by event, its row's verdict after each.
#![tactic(auto)]

ghost use Rattle.std.specs.Prelude.{◌≡◌, List, ℕ, ◌≤◌, ◌<◌};
ghost use Rattle.model.specs.Faults.{answer_in, started_in};
ghost use Rattle.model.specs.Tables.{tables};
ghost use Rattle.model.specs.Words.{most_events};
ghost use Rattle.model.specs.Walks.{start_at, step, strayed};
ghost use Rattle.model.specs.Promises.{answer_of, event, followed_by, StartsFollower, FollowsEvent, FollowsInPlace};
ghost use Rattle.tables.specs.Views.{table_in};
ghost use Rattle.follower.specs.Checks.{event_checks};
ghost use Rattle.follower.specs.Outcomes.{followed_in, moved_in};

use model::{Built, Fault, Follower, MOST_EVENTS, Refused, Stamp};
use shape::in_shape;
use tables::Table;
use walk::{Walk, verdict};
use word::grain_ok;

// D, and all else zero.
pub(crate) fn at_start(grain: u32) -> Follower
    ensures { result ≡ start_at grain }
{
    Follower {
        grain,
        row: 0,
        reset: Stamp(0),
        last: Stamp(0),
        count: 0,
    }
}

// Only 30 refuses.
pub fn start_follower(grain: u32) -> Result<Follower, Refused>
    ensures { StartsFollower grain (started_in result) }
{
    if !grain_ok(grain) {
        return Err(Fault::BadGrain.into());
    }
    Ok(at_start(grain))
}

// Row not below R, reset stamp above last stamp or no multiple of D, or count over 4,096.
pub(crate) fn strayed(rows: u32, follower: Follower) -> bool
    requires { 1 ≤ follower.grain }
    ensures { result ≡ strayed rows follower }
{
    rows <= follower.row
        || follower.last < follower.reset
        || follower.reset.0 % follower.grain != 0
        || (MOST_EVENTS as u32) < follower.count
}

// 30, 34, 31, 32, 33, in this order. The event is number count + 1.
pub(crate) fn check_event(
    follower: Follower,
    built: Built,
    symbol: u16,
    stamp: Stamp,
) -> Result<(), Refused>
    ensures { answer_in (λ u. 0) result ≡ answer_of (event_checks built follower (event symbol stamp)) 0 }
{
    if !grain_ok(follower.grain) {
        return Err(Fault::BadGrain.into());
    }
    if strayed(built.rows, follower) {
        return Err(Fault::Strayed.into());
    }
    if follower.count == MOST_EVENTS as u32 {
        return Err(Fault::BadCount.into());
    }
    let place = follower.count as usize + 1;
    if built.symbols <= u32::from(symbol) {
        return Err(Refused {
            fault: Fault::UnknownSymbol,
            place,
        });
    }
    if stamp < follower.last {
        return Err(Refused {
            fault: Fault::FallingStamp,
            place,
        });
    }
    Ok(())
}

// The follower after an event.
#[tactic(auto, unfolding(model::specs::Walks::step))]
pub(crate) fn moved(follower: Follower, table: Table<'_>, symbol: u16, stamp: Stamp) -> Follower
    requires { follower.count < most_events }
    ensures { result ≡ step (table_in table.entry) follower (event symbol stamp) }
{
    let walk = Walk {
        row: follower.row,
        reset: follower.reset,
    };
    let next = walk.step(table, follower.grain, symbol, stamp);
    Follower {
        grain: follower.grain,
        row: next.row,
        reset: next.reset,
        last: stamp,
        count: follower.count + 1,
    }
}

// The event's own checks, then the step, with the verdict that the new row stores. Written into its callers, so that
// they read follower and table where those lie and write the answer once: a record handed on is a copy.
#[inline(always)]
pub fn take_event(
    follower: Follower,
    table: Table<'_>,
    symbol: u16,
    stamp: Stamp,
) -> Result<(Follower, bool), Refused>
    ensures { (pool : List ℕ) → followed_in follower result
        ≡ followed_by (event_checks table.entry.built follower (event symbol stamp))
        (tables table.entry.built table.entry.cells.now table.entry.rows.now pool) follower (event symbol stamp) }
{
    check_event(follower, table.built, symbol, stamp)?;
    let next = moved(follower, table, symbol, stamp);
    let yes = verdict(table, next.row);
    Ok((next, yes))
}

// 25, then the event. Written into its callers, as take_event is.
#[inline(always)]
pub fn follow_event(
    follower: Follower,
    table: Table<'_>,
    symbol: u16,
    stamp: Stamp,
) -> Result<(Follower, bool), Refused>
    ensures { FollowsEvent follower table.entry.built table.entry.cells.now table.entry.rows.now table.entry.pool.now
        symbol stamp (followed_in follower result) }
{
    if !in_shape(table) {
        return Err(Fault::OutOfShape.into());
    }
    take_event(follower, table, symbol, stamp)
}

// The same on the head's own record, brought forward where it is kept; a refused event leaves it as it was.
pub fn follow_in_place(
    follower: &mut Follower,
    table: Table<'_>,
    symbol: u16,
    stamp: Stamp,
) -> Result<bool, Refused>
    ensures { FollowsInPlace follower.old follower.new table.entry.built table.entry.cells.now table.entry.rows.now
        table.entry.pool.now symbol stamp (moved_in result) }
{
    let was = *follower;
    let (next, yes) = follow_event(was, table, symbol, stamp)?;
    *follower = next;
    Ok(yes)
}
