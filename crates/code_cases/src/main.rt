// Every code of every size, taken apart and made again: for each L, K and cm in their ranges with N at or below 65,536.
// Three numbers: such sizes, codes below their N, and codes that did not come back as they were.
#![tactic(auto)]

ghost use Rattle.std.specs.Prelude.{◌≤◌};
ghost use Rattle.model.specs.Rules.{most_locations};

use codes::Scale;
use codes::powers::scale_by;
use model::{MOST_CLOCKS, MOST_CONSTANT, MOST_LOCATIONS, MOST_PAIRS};
use numbers::Narrow;
use std::{fmt, io};

// Does a code come back, from a location below L?
fn comes_back(scale: Scale, locations: usize, code: u32) -> bool
    requires { locations ≤ most_locations }
{
    let pair = scale.unpack(code);
    pair.location < locations && scale.pack(u16::narrow(pair.location), pair.bases) == code as usize
}

// What was seen. The sums stop at the top of their range, which they do not reach.
#[derive(Clone, Copy, Default)]
struct Tally {
    sizes: usize,
    codes: usize,
    wrong: usize,
}

impl Tally {
    // All codes below N, of a size with N at or below 65,536.
    fn see(&mut self, scale: Scale, locations: usize)
        requires { locations ≤ most_locations }
    {
        let pairs = locations * scale.weight as usize;
        if MOST_PAIRS < pairs {
            return;
        }
        let wrong = (0..pairs as u32)
            .filter(|code| !comes_back(scale, locations, *code))
            .count();
        self.sizes = self.sizes.saturating_add(1);
        self.codes = self.codes.saturating_add(pairs);
        self.wrong = self.wrong.saturating_add(wrong);
    }
}

impl fmt::Display for Tally {
    fn fmt<W: fmt::Write>(&self, f: &mut fmt::Formatter<W>) -> fmt::Result {
        write!(f, "{} {} {}", self.sizes, self.codes, self.wrong)
    }
}

fn main(rt: HostRuntime) -> io::Result<()> {
    let mut tally = Tally::default();
    for clocks in 1..=MOST_CLOCKS as u32 {
        for top in 0..=MOST_CONSTANT as u8 {
            let scale = scale_by(top, clocks);
            for locations in 1..=MOST_LOCATIONS {
                tally.see(scale, locations);
            }
        }
    }
    println!(rt; "{tally}")
}
