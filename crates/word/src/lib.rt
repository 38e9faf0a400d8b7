// The check of a word: D, the number of events, then each event's symbol and stamp.
#![tactic(auto)]

ghost use Rattle.std.specs.Prelude.{◌≡◌, length, IfOk};
ghost use Rattle.model.specs.Faults.{answer_in};
ghost use Rattle.model.specs.Words.{grain_ok};
ghost use Rattle.model.specs.Promises.{ChecksWord};
ghost use Rattle.word.specs.Answers.{events_answer, stopped_at};

use model::{Fault, MOST_GRAIN, Refused, Stamp};

// A word's events, as lent: each has its symbol and its stamp.
#[derive(Clone, Copy)]
pub struct Events<'a> {
    pub symbols: &'a [u16],
    pub stamps: &'a [u32],
    pub ghost equal: { length symbols.now ≡ length stamps.now },
}

// Is D from 1 to 1,000?
pub fn grain_ok(grain: u32) -> bool
    ensures { result ≡ grain_ok grain }
{
    (1..=MOST_GRAIN as u32).contains(&grain)
}

// The number of events before the first bad one: its stamp falls, or its symbol is unknown. Which of the two, and at
// which place, is for the caller to say: said in here, it makes the compiler put a second counter in the loop.
pub(crate) fn good_events(symbol_count: u32, events: Events<'_>) -> usize
    ensures { stopped_at symbol_count events.entry.symbols.now result
        ≡ events_answer symbol_count events.entry.symbols.now events.entry.stamps.now }
{
    let mut last = Stamp(0);
    for i in 0..events.symbols.len() {
        let stamp = Stamp(events.stamps[i]);
        if stamp < last || symbol_count <= u32::from(events.symbols[i]) {
            return i;
        }
        last = stamp;
    }
    events.symbols.len()
}

// 32 and 33: the earliest bad event, from 1; its symbol before its stamp.
pub(crate) fn check_events(symbol_count: u32, events: Events<'_>) -> Result<(), Refused>
    ensures { answer_in (λ u. 0) result ≡ events_answer symbol_count events.entry.symbols.now events.entry.stamps.now }
{
    let good = good_events(symbol_count, events);
    if events.symbols.len() <= good {
        return Ok(());
    }
    let place = good + 1;
    if symbol_count <= u32::from(events.symbols[good]) {
        return Err(Refused {
            fault: Fault::UnknownSymbol,
            place,
        });
    }
    Err(Refused {
        fault: Fault::FallingStamp,
        place,
    })
}

// 30 to 33, with at most `most` events.
#[tactic(auto, unfolding(model::specs::Words::word_refusal))]
pub fn check_word<'a>(
    symbol_count: u32,
    grain: u32,
    most: u32,
    symbols: &'a [u16],
    stamps: &'a [u32],
) -> Result<Events<'a>, Refused>
    ensures checks { ChecksWord symbol_count grain most symbols.now stamps.now (answer_in (λ e. 0) result) }
    ensures lends { IfOk result (λ e. (e.symbols.now ≡ symbols.now) × (e.stamps.now ≡ stamps.now)) }
{
    if !grain_ok(grain) {
        return Err(Fault::BadGrain.into());
    }
    if symbols.len() != stamps.len() || (most as usize) < symbols.len() {
        return Err(Fault::BadCount.into());
    }
    let events = Events { symbols, stamps };
    check_events(symbol_count, events)?;
    Ok(events)
}
