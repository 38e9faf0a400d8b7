// What held a rule back: the guard of the lowest edge that leaves an initial location on the first symbol, asked at the
// first event.
ghost use Rattle.std.specs.Prelude.{◌≡◌, false, ◌&&◌, ◌^◌, ◌≤◌, ◌<◌, eqb};
ghost use Rattle.model.specs.Basics.{is_in};
ghost use Rattle.model.specs.Rules.{most_clocks, most_edges};
ghost use Rattle.model.specs.Words.{events_of};
ghost use Rattle.model.specs.Runs.{older, start_ages, lowest_leaving, held_back};
ghost use Rattle.model.specs.Layout.{locations_in, rule_in};
ghost use Rattle.edges.specs.Views.{edge_of};
ghost use Rattle.branch.specs.Branches.{least_of, Begins};

use ages::{Configuration, has_location};
use edges::{StoredEdge, StoredRule};
use guards::guard_of;
use model::Stamp;
use numbers::part_of;
use word::Events;

// An edge leaves a location of the set, with the symbol.
pub(crate) fn leaves_some(edge: StoredEdge<'_>, set: u32, symbol: u16) -> bool
    ensures { result
        ≡ (is_in (edge_of edge.entry).source (locations_in set)
        && eqb (edge_of edge.entry).symbol symbol) }
{
    has_location(set, edge.source() as u32) && edge.symbol() == usize::from(symbol)
}

// The guard of the lowest edge that leaves an initial location on the first symbol, by the first event's ages; it holds
// where there is no such edge.
pub(crate) fn lowest_leaving(
    rule: StoredRule<'_>,
    grain: u32,
    symbol: u16,
    stamp: u32,
) -> Option<usize>
    requires { (rule.head.clocks ≤ most_clocks) × (rule.head.count ≤ most_edges) }
    ensures { result
        ≡ lowest_leaving (rule_in rule.entry.head rule.entry.edges.now).initial symbol grain
        (older stamp (start_ages (rule_in rule.entry.head rule.entry.edges.now)))
        (rule_in rule.entry.head rule.entry.edges.now).edges }
{
    let now = Configuration::start(0).after_delay(Stamp(stamp).since(Stamp(0)));
    let read = now.ages.readings();
    let by = part_of(&read, 0, rule.head.clocks as usize);
    for e in 0..rule.head.count {
        let edge = rule.edge(e);
        if leaves_some(edge, rule.head.starts, symbol) {
            return guard_of(edge, by, grain);
        }
    }
    None
}

// What held the rule back where no run accepts: nothing without events.
pub(crate) fn held_back(rule: StoredRule<'_>, grain: u32, events: Events<'_>) -> Option<usize>
    requires begins { Begins rule.head events.symbols.now events.stamps.now }
    requires none { (least_of rule.head rule.edges.now grain events.symbols.now events.stamps.now).found ≡ false }
    ensures { result
        ≡ held_back (rule_in rule.entry.head rule.entry.edges.now) grain
        (events_of events.entry.symbols.now events.entry.stamps.now) }
{
    if events.symbols.is_empty() {
        return None;
    }
    lowest_leaving(rule, grain, events.symbols[0], events.stamps[0])
}
