// The ages of the clocks by value, what a guard reads of them, and an edge of the table as a move between
// configurations.
// Total: ages past the rule's clocks are not looked at, and a clock past them reads 0, as in the definitions.
#![tactic(auto)]

ghost use Rattle.std.specs.Prelude.{◌≡◌, ◌+◌};
ghost use Rattle.model.specs.Basics.{pick, lesser, zeros, bit, is_in, same};
ghost use Rattle.model.specs.Rules.{most_clocks};
ghost use Rattle.model.specs.Runs.{zeroed};
ghost use Rattle.model.specs.Layout.{locations_in};
ghost use Rattle.edges.specs.Leaving.{leaves_on};
ghost use Rattle.edges.specs.Views.{edge_of};
ghost use Rattle.ages.specs.Ages.{numbers_of, ages_of, most_age, older_capped, Waited, Moved};
ghost use Rattle.ages.specs.Ages.{takes, config_of, same_config};

use edges::StoredEdge;
use guards::guard_holds;
use model::{Age, MOST_CLOCKS, MOST_LOCATIONS};
use numbers::{has_bit, part_of};

// The ages of as many clocks as a rule may have.
#[derive(Clone, Copy)]
pub struct Ages {
    pub of: [Age; MOST_CLOCKS],
}

// One age after the delay, at most the last number of 32 bits.
pub fn later(age: Age, delay: Age) -> Age
    ensures { result.0 ≡ lesser (age.0 + delay.0) most_age }
{
    Age(age.0.saturating_add(delay.0))
}

// One age after a reset by the mask.
pub fn kept(age: Age, mask: usize, clock: usize) -> Age
    ensures { result.0 ≡ pick (bit clock mask) 0 age.0 }
{
    if has_bit(mask, clock) { Age(0) } else { age }
}

impl Ages {
    // All ages are 0 at time 0.
    pub fn zero() -> Ages
        ensures { numbers_of result.of ≡ zeros most_clocks }
    {
        Ages {
            of: [Age(0); MOST_CLOCKS],
        }
    }

    // The delay is added to every age.
    pub fn older(self, delay: Age) -> Ages
        ensures { numbers_of result.of ≡ older_capped delay.0 (numbers_of self.of) }
    {
        Ages {
            of: self.of.map(|age| later(age, delay)),
        }
    }

    // The clocks of the mask are zeroed.
    pub fn zeroed(self, mask: usize) -> Ages
        ensures { numbers_of result.of ≡ zeroed mask (numbers_of self.of) }
    {
        let [a, b, c, d] = self.of;
        Ages {
            of: [
                kept(a, mask, 0),
                kept(b, mask, 1),
                kept(c, mask, 2),
                kept(d, mask, 3),
            ],
        }
    }

    // What the clocks read, for a guard: their ages in D-ths. No other code takes an age for a plain number.
    pub fn readings(self) -> [u32; MOST_CLOCKS]
        ensures { result ≡ numbers_of self.of }
    {
        self.of.map(|age| age.0)
    }

    // Equal ages, as far as there are clocks.
    pub fn same(self, other: Ages, clocks: usize) -> bool
        ensures { result ≡ same (ages_of clocks self) (ages_of clocks other) }
    {
        let count = clocks.min(MOST_CLOCKS);
        self.readings()[..count] == other.readings()[..count]
    }
}

// A location and the ages of the clocks.
#[derive(Clone, Copy)]
pub struct Configuration {
    pub location: u32,
    pub ages: Ages,
}

impl Configuration {
    // A location with all ages 0.
    pub fn start(location: u32) -> Configuration
        ensures { (result.location ≡ location) × (numbers_of result.ages.of ≡ zeros most_clocks) }
    {
        Configuration {
            location,
            ages: Ages::zero(),
        }
    }

    // An edge leaves the location, with the symbol.
    pub fn is_left(self, edge: StoredEdge<'_>, symbol: u16) -> bool
        ensures { result ≡ leaves_on self.location symbol (edge_of edge.entry) }
    {
        edge.source() == self.location as usize && edge.symbol() == usize::from(symbol)
    }

    // An edge can be taken: it leaves the location, with the symbol, and its guard holds.
    pub fn can_take(self, edge: StoredEdge<'_>, clocks: usize, grain: u32, symbol: u16) -> bool
        ensures { result ≡ takes grain clocks symbol self (edge_of edge.entry) }
    {
        if !self.is_left(edge, symbol) {
            return false;
        }
        let read = self.ages.readings();
        guard_holds(edge, part_of(&read, 0, clocks), grain)
    }

    // Time passes: every age grows by the delay, the location stays.
    pub fn after_delay(self, delay: Age) -> Configuration
        ensures { Waited delay.0 self result }
    {
        Configuration {
            location: self.location,
            ages: self.ages.older(delay),
        }
    }

    // An edge is taken: its clocks are zeroed, its target is reached.
    pub fn after_edge(self, edge: StoredEdge<'_>) -> Configuration
        ensures { Moved (edge_of edge.entry) self result }
    {
        Configuration {
            location: edge.target() as u32,
            ages: self.ages.zeroed(edge.resets()),
        }
    }

    // Equal locations and ages.
    pub fn same(self, other: Configuration, clocks: usize) -> bool
        ensures { result ≡ same_config (config_of clocks self) (config_of clocks other) }
    {
        self.location == other.location && self.ages.same(other.ages, clocks)
    }
}

// Is a location in a set of locations.
pub fn has_location(set: u32, location: u32) -> bool
    ensures { result ≡ is_in location (locations_in set) }
{
    let place = location as usize;
    place < MOST_LOCATIONS && has_bit(set as usize, place)
}
