// The branch runner: follows the branches with the events left, and answers the accepting run that is least by start,
// then edge by edge, or what held the rule back. No scratch: at most MOST_BRANCH_EVENTS events.
#![tactic(auto)]

ghost use Rattle.std.specs.Prelude.{◌≡◌, ◌-◌, ◌<◌, ◌≤◌, length, set};
ghost use Rattle.model.specs.Words.{most_branch_events};
ghost use Rattle.model.specs.Promises.{RunsBranches};
ghost use Rattle.branch.specs.Branches.{placed, begun, least_at, least_of, Ready, Begins};
ghost use Rattle.branch.specs.Outcomes.{branch_in};

use ages::{Configuration, has_location};
use edges::StoredRule;
use guards::guard_holds;
use held::held_back;
use model::{MOST_BRANCH_EVENTS, MOST_LOCATIONS, Refused, Stamp};
use numbers::{has_bit, part_of};
use rule::check_rule;
use word::{Events, check_word};

mod held;

// An accepting run: its start and its edges, by number, all else zero.
#[derive(Clone, Copy)]
pub struct Run {
    pub start: u16,
    pub edges: [u16; MOST_BRANCH_EVENTS],
}

// What the runner answers: the least accepting run, or that there is none, with the first member of a guard, by
// position from 0, that held the rule back at the first event.
#[derive(Clone, Copy)]
pub enum Outcome {
    Accepts(Run),
    Blank { held: Option<usize> },
}

// What every step of the search is given alike. Each is lent it: by value it would be copied at each.
#[derive(Clone, Copy)]
pub(crate) struct Given<'a> {
    pub rule: StoredRule<'a>,
    pub grain: u32,
    pub events: Events<'a>,
}

// A run with edge `e` for event `depth`.
pub(crate) fn with_edge(
    run: [u16; MOST_BRANCH_EVENTS],
    depth: usize,
    e: u16,
) -> [u16; MOST_BRANCH_EVENTS]
    requires { depth < most_branch_events }
    ensures { result ≡ set run depth e }
{
    let mut longer = run;
    longer[depth] = e;
    longer
}

// The least accepting run from a configuration over the events left: the last `left` of the word. It calls itself with
// one event fewer. Its edges stand from the place of the first of these events on.
// An edge is tested by the two parts of `can_take`, what the clocks read being the same for all edges.
pub(crate) fn least_from(
    given: &Given<'_>,
    left: usize,
    last: Stamp,
    from: Configuration,
) -> Option<[u16; MOST_BRANCH_EVENTS]>
    requires { (left ≤ length given.now.events.symbols.now)
        × Ready given.now.rule.head given.now.events.symbols.now given.now.events.stamps.now
        (length given.now.events.symbols.now - left) last.0 from }
    ensures { result ≡ placed (length given.now.events.symbols.now - left)
        (least_at given.now.rule.head given.now.rule.edges.now given.now.grain given.now.events.symbols.now
        given.now.events.stamps.now (length given.now.events.symbols.now - left) last.0 from) }
{
    let rule = given.rule;
    let events = given.events;
    if left == 0 {
        if has_location(rule.head.ends, from.location) {
            return Some([0; MOST_BRANCH_EVENTS]);
        }
        return None;
    }
    let depth = events.symbols.len() - left;
    let symbol = events.symbols[depth];
    let at = events.stamps[depth];
    let now = from.after_delay(Stamp(at).since(last));
    let clocks = given.rule.head.clocks;
    let read = now.ages.readings();
    let by = part_of(&read, 0, clocks as usize);
    for e in 0..rule.head.count {
        let edge = rule.edge(e);
        if now.is_left(edge, symbol) && guard_holds(edge, by, given.grain) {
            let next = now.after_edge(edge);
            if let Some(run) = least_from(given, left - 1, Stamp(at), next) {
                return Some(with_edge(run, depth, e as u16));
            }
        }
    }
    None
}

// The least accepting run by its start: the first initial location from which there is one.
pub(crate) fn least_start(given: &Given<'_>) -> Option<Run>
    requires { Begins given.now.rule.head given.now.events.symbols.now given.now.events.stamps.now }
    ensures { result ≡ begun
        (least_of given.now.rule.head given.now.rule.edges.now given.now.grain given.now.events.symbols.now
        given.now.events.stamps.now) }
{
    let starts = given.rule.head.starts as usize;
    for l in 0..MOST_LOCATIONS {
        if has_bit(starts, l) {
            let from = Configuration::start(l as u32);
            if let Some(edges) = least_from(given, given.events.symbols.len(), Stamp(0), from) {
                return Some(Run {
                    start: l as u16,
                    edges,
                });
            }
        }
    }
    None
}

// 20, 21, 30 to 33 with at most MOST_BRANCH_EVENTS events; then the least accepting run, or what held the rule back.
pub fn run_branches(
    rule: StoredRule<'_>,
    grain: u32,
    symbols: &[u16],
    stamps: &[u32],
) -> Result<Outcome, Refused>
    ensures { RunsBranches rule.entry.head rule.entry.edges.now grain symbols.now stamps.now (branch_in result) }
{
    check_rule(rule)?;
    let events = check_word(
        rule.head.symbols,
        grain,
        MOST_BRANCH_EVENTS as u32,
        symbols,
        stamps,
    )?;
    let given = Given {
        rule,
        grain,
        events,
    };
    if let Some(run) = least_start(&given) {
        return Ok(Outcome::Accepts(run));
    }
    let held = held_back(rule, grain, events);
    Ok(Outcome::Blank { held })
}
