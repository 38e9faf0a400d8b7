// How many words a list has, by length. With one stamp more the words of n events are those of before, and behind each
// symbol at the new stamp those that are one event shorter. Every number is cut at 1,000,001: nothing overflows, and up
// to 1,000,000 the numbers are exact.
ghost use Rattle.std.specs.Prelude.{◌≡◌, ℕ, suc, ◌≤◌, ltb, length, sum};
ghost use Rattle.model.specs.Lists.{most_listed_events};
ghost use Rattle.model.specs.Shares.{most_words, out_of_all};
ghost use Rattle.shares.specs.Lengths.{cut, LengthsOf, Lengths};

use model::{LIST_GRAIN, MOST_LISTED_EVENTS, MOST_WORDS};

// 1,000,001 for more.
pub(crate) fn cut(x: usize) -> u32
    ensures { result ≡ cut x }
{
    x.min(MOST_WORDS + 1) as u32
}

// The same with one stamp more.
pub(crate) fn add_stamp(symbols: u32, lengths: &mut [u32])
    ensures { (length lengths.new ≡ length lengths.old)
        × ((k : ℕ) → LengthsOf symbols k lengths.old
        → LengthsOf symbols (suc k) lengths.new) }
{
    // By places: each length takes in the one before it, as it stands by now.
    for n in 1..lengths.len() {
        lengths[n] = cut(lengths[n] as usize + symbols as usize * lengths[n - 1] as usize);
    }
}

// The words of each length, place n for n events.
pub(crate) fn list_lengths(symbols: u32, seconds: u32, lengths: &mut [u32])
    requires { 1 ≤ length lengths.old }
    ensures { Lengths symbols seconds lengths.old lengths.new }
{
    lengths.fill(0);
    lengths[0] = 1;
    let stamps = LIST_GRAIN * seconds as usize + 1;
    for _stamp in 0..stamps {
        add_stamp(symbols, lengths);
    }
}

// All of up to seven numbers together.
pub(crate) fn sum_of(numbers: &[u32]) -> usize
    requires { length numbers.now ≤ suc most_listed_events }
    ensures { result ≡ sum numbers.now }
{
    numbers.iter().map(|number| *number as usize).sum()
}

// Is a list longer than 1,000,000 words?
pub(crate) fn is_long(symbols: u32, events: u32, seconds: u32) -> bool
    requires { events ≤ most_listed_events }
    ensures { result ≡ ltb most_words (out_of_all symbols seconds events) }
{
    let mut lengths = [0u32; MOST_LISTED_EVENTS + 1];
    let used = events as usize + 1;
    list_lengths(symbols, seconds, &mut lengths[..used]);
    MOST_WORDS < sum_of(&lengths[..used])
}
