// Pairs of a location and bases: which edges they allow, and where these lead.
// Total: each number has the width that its range needs, and a clock past the array reads 0, as in the definitions.
// That a target is the right code is said for a scale of powers.
#![tactic(auto)]

ghost use Rattle.std.specs.Prelude.{◌≡◌};
ghost use Rattle.edges.specs.Views.{edge_of};
ghost use Rattle.codes.specs.Codes.{Powered};
ghost use Rattle.pairs.specs.Pairs.{pair_allows, pair_resets_on, pair_target};

use crate::moments::Moment;
use codes::{Pair, Scale};
use edges::StoredEdge;
use guards::guard_holds;
use numbers::Narrow;

pub mod moments;

// What one of a constant is in regions: constant c is region 2c.
const REGION_UNIT: u32 = 2;

// What a row is left by: a symbol, and the number of the timer's interval.
#[derive(Clone, Copy)]
pub struct Input {
    pub symbol: u32,
    pub interval: u32,
}

// A pair that is left by an input; the scale has cm and makes the targets' codes.
#[derive(Clone, Copy)]
pub struct Departure {
    pub pair: Pair,
    pub input: Input,
    pub scale: Scale,
}

impl Departure {
    // Does the pair allow the edge?
    pub fn allows(self, edge: StoredEdge<'_>) -> bool
        ensures { result ≡ pair_allows self.scale.top self.input self.pair (edge_of edge.entry) }
    {
        if edge.source() != self.pair.location || edge.symbol() != self.input.symbol as usize {
            return false;
        }
        let read = self.moment().readings(self.pair.bases);
        guard_holds(edge, &read, REGION_UNIT)
    }

    // Does the edge reset a clock, and does the pair allow it?
    pub fn resets_on(self, edge: StoredEdge<'_>) -> bool
        ensures { result ≡ pair_resets_on self.scale.top self.input self.pair (edge_of edge.entry) }
    {
        edge.resets() != 0 && self.allows(edge)
    }

    // The code of the pair's target by the edge; `timer` says whether the timer is reset.
    pub fn target(self, edge: StoredEdge<'_>, timer: bool) -> usize
        ensures { Powered self.scale
            → result ≡ pair_target self.scale self.input.interval timer self.pair (edge_of edge.entry) }
    {
        let location = u16::narrow(edge.target());
        let mask = edge.resets();
        let next = self.moment().moved(mask, timer, self.pair.bases);
        self.scale.pack(location, next)
    }

    fn moment(self) -> Moment
        ensures top_is { result.top ≡ self.scale.top }
        ensures interval_is { result.interval ≡ self.input.interval }
    {
        Moment {
            top: self.scale.top,
            interval: self.input.interval,
        }
    }
}
