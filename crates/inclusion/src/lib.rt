// Does one table allow only what another allows? If not, a shortest word that refutes it.
#![tactic(auto)]

ghost use Rattle.std.specs.Prelude.{◌≡◌, true, false, MatchOption, length};
ghost use Rattle.model.specs.Basics.{lesser, zeros};
ghost use Rattle.model.specs.Words.{most_events};
ghost use Rattle.model.specs.Walks.{in_shape};
ghost use Rattle.model.specs.Promises.{ChecksInclusion, Searched};
ghost use Rattle.tables.specs.Views.{table_in};
ghost use Rattle.inclusion.specs.Views.{first_of, second_of, graph_in, joint_states};
ghost use Rattle.inclusion.specs.Trails.{Retraceable};
ghost use Rattle.inclusion.specs.Judging.{Judges, Shows, inclusion_in};

use crate::scan::search;
use crate::sides::{Side, Two};
use crate::states::joint_count;
use crate::trail::{depth, retrace, sum_up};
use model::{Fault, MOST_EVENTS, MOST_JOINT_STATES, Refused};
use numbers::lesser;
use shape::in_shape;
use std::ops::ControlFlow;
use tables::Table;

mod scan;
mod sides;
mod states;
mod trail;

// The events that the lent word room can show.
pub(crate) fn word_room(symbols: usize, stamps: usize) -> usize
    ensures { result ≡ lesser most_events (lesser symbols stamps) }
{
    lesser(MOST_EVENTS, lesser(symbols, stamps))
}

// A table as the search takes it; none where it is out of shape.
pub(crate) fn shaped<'a>(table: Table<'a>) -> Option<Side<'a>>
    ensures { MatchOption result (in_shape (table_in table.entry) ≡ false)
        (λ s. (in_shape (table_in table.entry) ≡ true) × (s.table ≡ table.entry)) }
{
    if !in_shape(table) {
        return None;
    }
    Some(Side { table })
}

// 25 for either table, 35, 36.
pub(crate) fn admit<'a>(
    first: Table<'a>,
    second: Table<'a>,
    size: usize,
) -> Result<Two<'a>, Refused>
    ensures { Judges (table_in first.entry) (table_in second.entry) size result }
{
    let Some(first) = shaped(first) else {
        return Err(Fault::OutOfShape.into());
    };
    let Some(second) = shaped(second) else {
        return Err(Fault::OutOfShape.into());
    };
    if first.table.built.symbols != second.table.built.symbols {
        return Err(Fault::OtherSymbols.into());
    }
    let states = joint_count(first, second);
    if MOST_JOINT_STATES < states {
        return Err(Fault::NoRoomForStates.into());
    }
    if size < states {
        return Err(Fault::NoRoomForStates.into());
    }
    Ok(Two { first, second })
}

// The word that leads to the state at place `last`.
pub(crate) fn show(
    two: Two<'_>,
    scratch: &[u32],
    last: usize,
    symbols: &mut [u16],
    stamps: &mut [u32],
)
    requires { Retraceable (first_of two) (second_of two) scratch.now last symbols.old stamps.old }
    ensures { Shows (graph_in two.entry) scratch.now last symbols.new stamps.new }
{
    retrace(two, scratch, last, symbols, stamps);
    sum_up(stamps);
}

// Searches; on a goal writes the word, if there is room.
pub(crate) fn settle(
    two: Two<'_>,
    scratch: &mut [u32],
    symbols: &mut [u16],
    stamps: &mut [u32],
) -> Result<Option<usize>, Refused>
    requires scratch_long { length scratch.old ≡ joint_states two }
    requires scratch_zero { scratch.old ≡ zeros (length scratch.old) }
    requires symbols_zero { symbols.old ≡ zeros (length symbols.old) }
    requires stamps_zero { stamps.old ≡ zeros (length stamps.old) }
    ensures { Searched (first_of two.entry) (second_of two.entry)
        symbols.old symbols.new stamps.old stamps.new (inclusion_in result) }
{
    let ControlFlow::Break(last) = search(two, scratch) else {
        return Ok(None);
    };
    let events = depth(scratch, last);
    if word_room(symbols.len(), stamps.len()) < events {
        return Err(Fault::NoRoomForWord.into());
    }
    show(
        two,
        scratch,
        last,
        &mut symbols[..events],
        &mut stamps[..events],
    );
    Ok(Some(events))
}

// The same in rooms as they are lent: they are cleared first. `part` has a number for each joint state.
pub(crate) fn settle_in(
    two: Two<'_>,
    part: &mut [u32],
    symbols: &mut [u16],
    stamps: &mut [u32],
) -> Result<Option<usize>, Refused>
    requires { length part.old ≡ joint_states two }
    ensures { Searched (first_of two.entry) (second_of two.entry)
        symbols.old symbols.new stamps.old stamps.new (inclusion_in result) }
{
    part.fill(0);
    symbols.fill(0);
    stamps.fill(0);
    settle(two, part, symbols, stamps)
}

// 25, 35 and 36, then the search: none where the first allows only what the second allows, else how many events the
// word has. The scratch ends as zero, and so does all of the word room past the word.
pub fn check_inclusion<'a>(
    first: Table<'a>,
    second: Table<'a>,
    scratch: &mut [u32],
    symbols: &mut [u16],
    stamps: &mut [u32],
) -> Result<Option<usize>, Refused>
    ensures { ChecksInclusion (table_in first.entry) (table_in second.entry) scratch.old
        scratch.new symbols.old symbols.new stamps.old stamps.new (inclusion_in result) }
{
    let two = admit(first, second, scratch.len())?;
    let states = joint_count(two.first, two.second);
    let found = settle_in(two, &mut scratch[..states], symbols, stamps);
    scratch.fill(0);
    found
}
