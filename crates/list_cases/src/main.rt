// Lists of words from the empty word to the last, counted. Then answers at the edges of 38 and 39, and for a last word.
#![tactic(auto)]

use lists::next_word;
use model::{Listed, Size};
use std::{fmt, io};

fn size_of(symbols: u32, events: u32, seconds: u32) -> Size {
    Size {
        symbols,
        events,
        seconds,
    }
}

// A word of no event, one or two.
fn word_of(count: u32, symbol: u16, stamp: u32, symbol2: u16, stamp2: u32) -> Listed {
    Listed {
        count,
        symbols: [symbol, symbol2, 0, 0, 0, 0],
        stamps: [stamp, stamp2, 0, 0, 0, 0],
    }
}

// A word is shown by its count and its first two events.
#[derive(Clone, Copy)]
struct Shown(Listed);

impl fmt::Display for Shown {
    fn fmt<W: fmt::Write>(&self, f: &mut fmt::Formatter<W>) -> fmt::Result {
        let Listed {
            count,
            symbols,
            stamps,
        } = self.0;
        write!(
            f,
            "{count} {} {} {} {}",
            symbols[0], stamps[0], symbols[1], stamps[1]
        )
    }
}

// The number of words up to the last; none if there are more than `most`, or if one is refused.
fn count_words(size: Size, most: usize) -> Option<usize> {
    let mut word = word_of(0, 0, 0, 0, 0);
    for count in 1..=most {
        let Some(next) = next_word(size, word).ok()? else {
            return Some(count);
        };
        word = next;
    }
    None
}

// The number of the refusal, whether the word was the last, then the next word, or the one given where there is none.
fn print_next(rt: &impl Print, size: Size, word: Listed) -> io::Result<()> {
    let (number, last, word) = match next_word(size, word) {
        Ok(Some(next)) => (0, 0, next),
        Ok(None) => (0, 1, word),
        Err(refused) => (refused.fault.number(), 0, word),
    };
    print!(rt; "{number} {last} ")?;
    println!(rt; "{}", Shown(word))
}

fn main(rt: HostRuntime) -> io::Result<()> {
    // 1, 10, 60 and 280 words of 0 to 3 events: 351 in all
    for size in [
        size_of(2, 0, 2),
        size_of(2, 1, 2),
        size_of(2, 2, 2),
        size_of(2, 3, 2),
        size_of(3, 4, 3),
        size_of(1, 6, 0),
    ] {
        println!(rt; "{}", count_words(size, 100000).unwrap_or(0))?;
    }
    for (size, word) in [
        (size_of(2, 2, 1), word_of(2, 0, 0, 1, 2)),
        (size_of(2, 2, 1), word_of(1, 1, 2, 0, 0)),
        (size_of(2, 2, 1), word_of(2, 1, 2, 1, 2)),
        (size_of(0, 2, 1), word_of(0, 0, 0, 0, 0)),
        (size_of(17, 2, 1), word_of(0, 0, 0, 0, 0)),
        (size_of(2, 7, 1), word_of(0, 0, 0, 0, 0)),
        (size_of(2, 2, 31), word_of(1, 2, 0, 0, 0)),
        (size_of(2, 6, 1), word_of(7, 0, 0, 0, 0)),
        (size_of(2, 1, 1), word_of(2, 0, 0, 0, 0)),
        (size_of(2, 2, 1), word_of(1, 2, 0, 0, 0)),
        (size_of(2, 2, 1), word_of(1, 0, 3, 0, 0)),
        (size_of(2, 2, 1), word_of(2, 0, 2, 0, 1)),
        (size_of(2, 2, 1), word_of(1, 0, 0, 0, 1)),
    ] {
        print_next(&rt, size, word)?;
    }
    Ok(())
}
