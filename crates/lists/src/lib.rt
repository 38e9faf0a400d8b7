// All words up to a size, in order, D = 2: the word after another. The last event that can be raised is raised, those
// after it fall to their least; where none can be raised the first word of the next length comes.
#![tactic(auto)]

ghost use Rattle.std.specs.Prelude.{◌≡◌, ◌≤◌, ◌<◌};
ghost use Rattle.model.specs.Lists.{most_listed_events, span_ok, size_ok, top_stamp, fits_from, events_in, listed_of};
ghost use Rattle.model.specs.Lists.{in_list};
ghost use Rattle.model.specs.Promises.{GivesNext};
ghost use Rattle.lists.specs.Odometer.{rest_zero, up_to, up_to_raised, raised_at, symbol_at, stamp_at, placed};
ghost use Rattle.lists.specs.Odometer.{Raising, next_in};

use model::{
    Fault, LIST_GRAIN, Listed, MOST_LISTED_EVENTS, MOST_SECONDS, MOST_SYMBOLS, Refused, Size,
};

// Are m and H in their ranges?
pub fn span_ok(events: u32, seconds: u32) -> bool
    ensures { result ≡ span_ok events seconds }
{
    events as usize <= MOST_LISTED_EVENTS && seconds as usize <= MOST_SECONDS
}

// Are S, m and H in their ranges?
pub(crate) fn size_ok(size: Size) -> bool
    ensures { result ≡ size_ok size }
{
    1 <= size.symbols && size.symbols as usize <= MOST_SYMBOLS && span_ok(size.events, size.seconds)
}

// Do the events have known symbols, and stamps that never fall and end in time?
pub(crate) fn events_fit(size: Size, word: Listed) -> bool
    requires { word.count ≤ most_listed_events }
    ensures { result ≡ fits_from size.symbols (top_stamp size.seconds) 0 (events_in word) }
{
    let top = LIST_GRAIN * size.seconds as usize;
    let count = word.count as usize;
    let mut last = 0;
    for (symbol, stamp) in word.symbols[..count].iter().zip(&word.stamps[..count]) {
        if size.symbols <= u32::from(*symbol) || *stamp < last || top < *stamp as usize {
            return false;
        }
        last = *stamp;
    }
    true
}

// Are the unused places zero?
pub(crate) fn rest_zero(word: Listed) -> bool
    requires { word.count ≤ most_listed_events }
    ensures { result ≡ rest_zero word }
{
    let count = word.count as usize;
    word.symbols[count..].iter().all(|symbol| *symbol == 0)
        && word.stamps[count..].iter().all(|stamp| *stamp == 0)
}

// Is the word in the list?
pub(crate) fn in_list(size: Size, word: Listed) -> bool
    ensures { result ≡ in_list size word }
{
    if MOST_LISTED_EVENTS < word.count as usize || size.events < word.count {
        return false;
    }
    rest_zero(word) && events_fit(size, word)
}

// The last event that can be raised.
pub(crate) fn raisable(size: Size, word: Listed) -> Option<usize>
    requires { word.count ≤ most_listed_events }
    ensures { up_to result ≡ up_to_raised size.symbols (top_stamp size.seconds) (events_in word) }
{
    let top = LIST_GRAIN * size.seconds as usize;
    for at in (0..word.count as usize).rev() {
        if u32::from(word.symbols[at]) + 1 < size.symbols || (word.stamps[at] as usize) < top {
            return Some(at);
        }
    }
    None
}

// The symbol at place j once event i has a new one and those after it 0.
pub(crate) fn symbol_at(j: usize, i: usize, was: u16, symbol: u16) -> u16
    ensures { result ≡ symbol_at j i was symbol }
{
    if j < i {
        was
    } else if i < j {
        0
    } else {
        symbol
    }
}

// The stamp at place j once the events from i on have a new one.
pub(crate) fn stamp_at(j: usize, i: usize, count: usize, was: u32, stamp: u32) -> u32
    ensures { result ≡ stamp_at j i count was stamp }
{
    if i <= j && j < count { stamp } else { was }
}

// The word with a symbol and a stamp put at event i, those after it at symbol 0 and that stamp. Place by place: a loop
// over the two arrays is slower, and `from_fn` of the library is one.
pub(crate) fn place(word: Listed, i: usize, symbol: u16, stamp: u32) -> Listed
    requires { (word.count ≤ most_listed_events) × (i < word.count) }
    ensures { result ≡ placed word i symbol stamp }
{
    let count = word.count as usize;
    Listed {
        count: word.count,
        symbols: [
            symbol_at(0, i, word.symbols[0], symbol),
            symbol_at(1, i, word.symbols[1], symbol),
            symbol_at(2, i, word.symbols[2], symbol),
            symbol_at(3, i, word.symbols[3], symbol),
            symbol_at(4, i, word.symbols[4], symbol),
            symbol_at(5, i, word.symbols[5], symbol),
        ],
        stamps: [
            stamp_at(0, i, count, word.stamps[0], stamp),
            stamp_at(1, i, count, word.stamps[1], stamp),
            stamp_at(2, i, count, word.stamps[2], stamp),
            stamp_at(3, i, count, word.stamps[3], stamp),
            stamp_at(4, i, count, word.stamps[4], stamp),
            stamp_at(5, i, count, word.stamps[5], stamp),
        ],
    }
}

// Event i raised: its symbol while there is one more, else its stamp.
pub(crate) fn raise(size: Size, word: Listed, i: usize) -> Listed
    requires { Raising size word i }
    ensures { result ≡ listed_of (raised_at size.symbols i (events_in word)) }
{
    let symbol = word.symbols[i];
    let stamp = word.stamps[i];
    if u32::from(symbol) + 1 < size.symbols {
        return place(word, i, symbol + 1, stamp);
    }
    place(word, i, 0, stamp + 1)
}

// The word after another in the list; none where it was the last. 38, 39.
pub fn next_word(size: Size, word: Listed) -> Result<Option<Listed>, Refused>
    ensures { GivesNext size word (next_in word result) }
{
    if !size_ok(size) {
        return Err(Fault::BadSpan.into());
    }
    if !in_list(size, word) {
        return Err(Fault::NotListed.into());
    }
    let found = raisable(size, word);
    if let Some(at) = found {
        return Ok(Some(raise(size, word, at)));
    }
    if word.count == size.events {
        return Ok(None);
    }
    Ok(Some(Listed {
        count: word.count + 1,
        symbols: [0; MOST_LISTED_EVENTS],
        stamps: [0; MOST_LISTED_EVENTS],
    }))
}
