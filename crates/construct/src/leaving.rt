// The edges that leave a location on a symbol, linked one to the next in file order: a pair looks at no others.
// Made once a build. The edge count stands for 'no edge'.
ghost use Rattle.std.specs.Prelude.{◌≡◌, ◌+◌, ◌<◌, get_or};
ghost use Rattle.model.specs.Layout.{rule_refusal};
ghost use Rattle.model.specs.Construction.{pair_resets, row_resets};
ghost use Rattle.edges.specs.Views.{rule_of};
ghost use Rattle.construct.specs.Leaving.{first_link, next_place, Linked};
ghost use Rattle.construct.specs.Marks.{rule_by, departure_by};

use crate::Plan;
use edges::StoredRule;
use model::{MOST_LOCATIONS, MOST_SYMBOLS};
use numbers::at_or;
use pairs::{Departure, Input};

// Links in all: to the first edge that leaves each location on each symbol, then from each edge to the next like it.
const FIRST_LINKS: usize = 512;

const LINK_COUNT: usize = 768;

// Places MOST_SYMBOLS · location + symbol: the first edge that leaves there. Places FIRST_LINKS + e: the next after
// edge e that leaves where it does, on its symbol.
pub(crate) fn link_edges(rule: StoredRule<'_>) -> [u16; LINK_COUNT]
    requires { (rule_refusal rule.head rule.edges.now).number ≡ 0 }
    ensures { Linked (rule_of rule.entry) result }
{
    let count = rule.head.count;
    let mut links = [count as u16; LINK_COUNT];
    for e in (0..count).rev() {
        let edge = rule.edge(e);
        let first = MOST_SYMBOLS * edge.source() + edge.symbol();
        links[FIRST_LINKS + e as usize] = links[first];
        links[first] = e as u16;
    }
    links
}

impl Plan<'_> {
    // The first edge that leaves a location on a symbol.
    pub(crate) fn first_edge(self, location: usize, symbol: u32) -> u32
        ensures { result ≡ first_link self.entry.rule.head.count location symbol self.entry.links.now }
    {
        if MOST_LOCATIONS <= location || MOST_SYMBOLS as u32 <= symbol {
            return self.rule.head.count;
        }
        u32::from(at_or(self.links, MOST_SYMBOLS * location + symbol as usize, 0))
    }

    // The next edge after `e` that leaves where it does, on its symbol.
    pub(crate) fn next_edge(self, e: u32) -> u32
        ensures { result ≡ get_or self.entry.links.now (next_place e) 0 }
    {
        u32::from(at_or(self.links, FIRST_LINKS + e as usize, 0))
    }

    // The pair of a code, as it is left.
    pub(crate) fn departure(self, input: Input, code: u32) -> Departure
        ensures { result ≡ departure_by self.entry input code }
    {
        Departure {
            pair: self.scale.unpack(code),
            input,
            scale: self.scale,
        }
    }

    // Does the pair of a code allow an edge that resets a clock? The edges go by their links, so there is no range.
    fn pair_resets(self, input: Input, code: u32) -> bool
        ensures { result
            ≡ pair_resets (rule_by self.entry) input.symbol input.interval code (rule_by self.entry).edges }
    {
        let left = self.departure(input, code);
        let mut e = self.first_edge(left.pair.location, input.symbol);
        while e < self.rule.head.count {
            if left.resets_on(self.rule.edge(e)) {
                return true;
            }
            e = self.next_edge(e);
        }
        false
    }

    // Does some pair of a row allow one? Then the timer is reset. Resets are pinned to whole seconds: at no odd
    // interval.
    pub(crate) fn row_resets(self, input: Input, row: &[u32]) -> bool
        ensures { result ≡ row_resets (rule_by self.entry) input.symbol input.interval row.now }
    {
        input.interval % 2 == 0 && row.iter().any(|code| self.pair_resets(input, *code))
    }
}
