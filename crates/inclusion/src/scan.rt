// The search over the joint states of two tables, in order of the fewest events, in one lent scratch. The low part of
// its place k holds the k-th state found, the high part of its place x how state x was found: 0 where it was not, else
// 1 + way + 17 · (level mod 3), the way 0 for waiting and 1 + s for symbol s, the level the number of events.
// That it has a number for each joint state stands in the contracts, no ghost field: a struct that lends the scratch
// with that fact would have each state read through one more reference.
ghost use Rattle.std.specs.Prelude.{◌≡◌, suc, ◌≤◌, ◌<◌, length};
ghost use Rattle.model.specs.Basics.{zeros};
ghost use Rattle.inclusion.specs.Views.{first_of, second_of, graph_in, joint_states, number_in, Inward, ApartIn};
ghost use Rattle.inclusion.specs.Parts.{low, high, most_mark, noted, Laid};
ghost use Rattle.inclusion.specs.Scans.{Scan, Extends, Reaches, Expands, Searches, progress_in};

use crate::sides::{Joint, RowAge, Two};
use std::ops::ControlFlow;

// What the low part of a place can hold; ways of finding a state; levels told apart. Each has its name in specs/.
pub(crate) const PART: usize = 1048576;

pub(crate) const WAYS: usize = 17;

pub(crate) const LEVEL_MARKS: usize = 3;

// The state found at place k.
pub(crate) fn state_at(scratch: &[u32], k: usize) -> usize
    requires { k < length scratch.now }
    ensures { result ≡ low scratch.now k }
{
    scratch[k] as usize % PART
}

// How state x was found, 0 if it was not.
pub(crate) fn mark_at(scratch: &[u32], x: usize) -> usize
    requires { x < length scratch.now }
    ensures { result ≡ high scratch.now x }
{
    scratch[x] as usize / PART
}

// State x, not found so far, behind the others.
pub(crate) fn note(scratch: &mut [u32], tail: usize, x: usize, mark: usize)
    requires { Laid scratch.old tail × (x < length scratch.old) × (high scratch.old x ≡ 0) × (1 ≤ mark)
        × (mark ≤ most_mark) }
    ensures { scratch.new ≡ noted scratch.old tail x mark }
{
    scratch[tail] = scratch[tail] + x as u32;
    scratch[x] = scratch[x] + (PART * mark) as u32;
}

// All that waiting leads to from the last state found, j, which stands at place `last`; how many states there are then.
// Waiting costs no event: the level is that of the state it begins from.
pub(crate) fn extend(two: Two<'_>, scratch: &mut [u32], last: usize, j: Joint) -> usize
    requires long { length scratch.old ≡ joint_states two }
    requires laid { Laid scratch.old (suc last) }
    requires apart { ApartIn two (low scratch.old last) j }
    ensures { Extends (first_of two.entry).built (second_of two.entry).built scratch.old last scratch.new result }
{
    let state = state_at(scratch, last);
    let mark = 1 + WAYS * ((mark_at(scratch, state) - 1) / WAYS);
    let mut at = last;
    let mut next = two.wait_on(j);
    let mut x = two.pack(next);
    // No range: waiting is followed until a state that is found.
    while mark_at(scratch, x) == 0 {
        note(scratch, at + 1, x, mark);
        at += 1;
        next = two.wait_on(next);
        x = two.pack(next);
    }
    at + 1
}

// State j, if it is not found so far, with all that waiting leads to from it; or alone, if it is a goal.
// Inlined, since a call would copy both tables at every event.
#[inline(always)]
pub(crate) fn reach(
    two: Two<'_>,
    scratch: &mut [u32],
    tail: usize,
    j: Joint,
    mark: usize,
) -> ControlFlow<usize, usize>
    requires long { length scratch.old ≡ joint_states two }
    requires laid { Laid scratch.old tail }
    requires inside { Inward two j }
    requires mark_some { 1 ≤ mark }
    requires mark_most { mark ≤ most_mark }
    ensures { Reaches (first_of two.entry).built (second_of two.entry).built
        (first_of two.entry).rows (second_of two.entry).rows
        scratch.old tail (number_in two.entry j) mark scratch.new (progress_in result) }
{
    let y = two.pack(j);
    if mark_at(scratch, y) != 0 {
        return ControlFlow::Continue(tail);
    }
    note(scratch, tail, y, mark);
    if two.only_first(j) {
        return ControlFlow::Break(tail);
    }
    let more = extend(two, scratch, tail, j);
    ControlFlow::Continue(more)
}

// All events of the state at place `from`.
pub(crate) fn expand(
    two: Two<'_>,
    scratch: &mut [u32],
    tail: usize,
    from: usize,
) -> ControlFlow<usize, usize>
    requires long { length scratch.old ≡ joint_states two }
    requires scan { Scan (graph_in two) scratch.old tail tail from 0 }
    requires below { from < tail }
    ensures { Expands (graph_in two.entry) scratch.old from scratch.new (progress_in result) }
{
    let x = state_at(scratch, from);
    let level = (mark_at(scratch, x) - 1) / WAYS;
    // The mark of symbol 0, whose way is 1, one level up.
    let base = 2 + WAYS * ((level + 1) % LEVEL_MARKS);
    let j = two.apart(x);
    let mut at = tail;
    for symbol in 0..two.first.table.built.symbols as usize {
        let next = two.take_from(j, symbol);
        at = reach(two, scratch, at, next, base + symbol)?;
    }
    ControlFlow::Continue(at)
}

// Every joint state that some word reaches, in order of the fewest events; breaks off at the first goal, with its
// place.
pub(crate) fn search(two: Two<'_>, scratch: &mut [u32]) -> ControlFlow<usize, usize>
    requires long { length scratch.old ≡ joint_states two }
    requires zero { scratch.old ≡ zeros (length scratch.old) }
    ensures { Searches (graph_in two.entry) scratch.old scratch.new (progress_in result) }
{
    let start = RowAge { row: 0, age: 0 };
    let begin = Joint {
        first: start,
        second: start,
    };
    let mut tail = reach(two, scratch, 0, begin, 1)?;
    let mut from: usize = 0;
    // No range: the states found grow as they are passed.
    while from < tail {
        tail = expand(two, scratch, tail, from)?;
        from += 1;
    }
    ControlFlow::Continue(tail)
}
