// The exact runner: all distinct configurations after each event are kept, in two banks of the lent scratch.
#![tactic(auto)]

ghost use Rattle.std.specs.Prelude.{◌≡◌, ℕ, length};
ghost use Rattle.model.specs.Basics.{one_if, zeros};
ghost use Rattle.model.specs.Faults.{answer_in};
ghost use Rattle.model.specs.Promises.{RunsExact};
ghost use Rattle.exact.specs.Banks.{Holds};
ghost use Rattle.exact.specs.Runs.{starts_over, answer_with, answer_over, Begins, Started};

mod bank;
mod event;

use ages::Configuration;
use bank::Bank;
use edges::StoredRule;
use event::by_configs;
use model::{Fault, Head, MOST_EVENTS, MOST_LOCATIONS, Refused, Stamp};
use numbers::has_bit;
use rule::check_rule;
use std::mem;
use word::{Events, check_word};

// The initial locations with all ages 0, in a bank with nothing in it.
pub(crate) fn start_configs(head: Head, bank: &mut Bank<'_>) -> Option<()>
    requires { (bank.old.clocks ≡ head.clocks) × (bank.old.held ≡ 0) }
    ensures { Holds bank.old (starts_over head.clocks head.starts) bank.new result }
{
    for l in 0..MOST_LOCATIONS {
        if has_bit(head.starts as usize, l) {
            // Not by `?`: that the place of 26 is lost is then one word's change, and seen.
            let Some(()) = bank.append(Configuration::start(l as u32)) else {
                return None;
            };
        }
    }
    Some(())
}

// There is no room for the configurations after so many events.
fn full(place: usize) -> Refused
    ensures { (result.fault ≡ Fault.NoRoomForConfiguration) × (result.place ≡ place) }
{
    Refused {
        fault: Fault::NoRoomForConfiguration,
        place,
    }
}

// All events, one after another, from the configurations at the start; the banks change places with each.
pub(crate) fn follow_events<'a>(
    rule: StoredRule<'_>,
    grain: u32,
    events: Events<'_>,
    from: &mut Bank<'a>,
    to: &mut Bank<'a>,
) -> Result<bool, Refused>
    ghost room: { ℕ }
    requires { Started rule.head events.symbols.now events.stamps.now room from.old to.old }
    ensures { answer_in one_if result
        ≡ answer_with rule.entry.head rule.entry.edges.now grain events.entry.symbols.now events.entry.stamps.now room }
{
    let mut last = Stamp(0);
    for (i, (symbol, stamp)) in events.symbols.iter().zip(events.stamps).enumerate() {
        let stamp = Stamp(*stamp);
        by_configs(rule, grain, *symbol, stamp.since(last), from, to).ok_or(full(i + 1))?;
        mem::swap(from, to);
        last = stamp;
    }
    Ok(from.some_at(rule.head.ends))
}

// The scratch as two banks, the configurations at the start in the first of them, then the events.
pub(crate) fn run_events(
    rule: StoredRule<'_>,
    grain: u32,
    events: Events<'_>,
    scratch: &mut [u32],
) -> Result<bool, Refused>
    requires { Begins rule.head events.symbols.now events.stamps.now }
    ensures { answer_in one_if result
        ≡ answer_over rule.entry.head rule.entry.edges.now grain events.entry.symbols.now events.entry.stamps.now
        scratch.old }
{
    let clocks = rule.head.clocks as usize;
    let size = scratch.len() / (2 * (clocks + 1)) * (clocks + 1);
    let (front, back) = scratch.split_at_mut(size);
    let mut from = Bank::new(front, clocks);
    let mut to = Bank::new(&mut back[..size], clocks);
    start_configs(rule.head, &mut from).ok_or(full(0))?;
    follow_events(rule, grain, events, &mut from, &mut to)
}

// The outcome, once every number of the scratch is zeroed.
fn cleared(outcome: Result<bool, Refused>, scratch: &mut [u32]) -> Result<bool, Refused>
    ensures { (result ≡ outcome) × (scratch.new ≡ zeros (length scratch.old)) }
{
    scratch.fill(0);
    outcome
}

// 20, 21, 30 to 33, then 26 with its event. The scratch is zero after a call that passes the checks.
pub fn run_exact(
    rule: StoredRule<'_>,
    grain: u32,
    symbols: &[u16],
    stamps: &[u32],
    scratch: &mut [u32],
) -> Result<bool, Refused>
    ensures { RunsExact rule.entry.head rule.entry.edges.now grain symbols.now stamps.now
        scratch.old scratch.new (answer_in one_if result) }
{
    check_rule(rule)?;
    let events = check_word(
        rule.head.symbols,
        grain,
        MOST_EVENTS as u32,
        symbols,
        stamps,
    )?;
    let answer = run_events(rule, grain, events, scratch);
    cleared(answer, scratch)
}
