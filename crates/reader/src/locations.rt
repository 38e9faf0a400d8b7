// What a rule's locations have to keep: the sizes in their ranges, and locations that rise.
ghost use Rattle.std.specs.Prelude.{◌^◌, ◌≤◌, ◌<◌, MatchResult};
ghost use Rattle.model.specs.Rules.{most_locations};
ghost use Rattle.reader.specs.Records.{LocationTaken, LocationRefused};

use model::Fault;

// The initial or the final locations so far, as a mask, and the least location that may come next.
#[derive(Clone, Copy)]
pub(crate) struct Locations {
    pub(crate) mask: u32,
    pub(crate) least: u32,
    ghost below: { mask < 2 ^ least },
}

impl Locations {
    pub(crate) const NONE: Locations = Locations { mask: 0, least: 0 };

    // One location more, of a rule that has `count`: 3 where it does not rise, 6 where the rule has no such location.
    pub(crate) fn with(self, location: u32, count: u32) -> Result<Locations, Fault>
        requires { count ≤ most_locations }
        ensures { MatchResult result (λ d. LocationTaken self.mask self.least location count d.mask d.least)
            (λ f. LocationRefused self.least location count f) }
    {
        if location < self.least {
            return Err(Fault::OutOfOrder);
        }
        if count <= location {
            return Err(Fault::OutOfRange);
        }
        Ok(Locations {
            mask: self.mask + (1 << location),
            least: location + 1,
        })
    }
}

// The sizes of a rule, in their ranges.
#[derive(Clone, Copy)]
pub(crate) struct Sizes {
    pub(crate) locations: u32,
    pub(crate) symbols: u32,
    pub(crate) clocks: u32,
    ghost few: { locations ≤ most_locations },
}
