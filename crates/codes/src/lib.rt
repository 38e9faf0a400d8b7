// Codes of pairs, location · (cm + 2)^K plus the sum of base(k) · (cm + 2)^k, made and taken apart with the powers of
// cm + 2 that a scale carries.
// Total: any scale gives an answer. That it is the pair, or the code, is said for a scale of powers.
#![tactic(auto)]

ghost use Rattle.std.specs.Prelude.{◌≡◌};
ghost use Rattle.codes.specs.Codes.{Powered, packed, unpacked};

use model::MOST_CLOCKS;
use numbers::{Narrow, quotient, remainder};

pub mod powers;

// A place for each of the powers 0 to 4.
pub const POWER_PLACES: usize = 5;

// What the codes of a rule's pairs are made by, worked out once in a build: the clocks, cm as `top`, and the powers 0
// to K of cm + 2, those past K zero. `weight`, what a location counts, is power K: at hand without an index.
#[derive(Clone, Copy, Default)]
pub struct Scale {
    pub clocks: u32,
    pub top: u8,
    pub weight: u32,
    pub powers: [u32; POWER_PLACES],
}

// A location with a base for each clock; a base is the clock's value at the last timer reset.
#[derive(Clone, Copy)]
pub struct Pair {
    pub location: usize,
    pub bases: [u16; MOST_CLOCKS],
}

impl Scale {
    // The pair that a code stands for, from the highest power down: a division for the location, and one for each base
    // past that of clock 0 that is not 0. What power 1 leaves is the base of clock 0. Once nothing is left, the bases
    // still to come are 0, as they are from the start.
    pub fn unpack(self, code: u32) -> Pair
        ensures { Powered self → result ≡ unpacked self code }
    {
        let powers = self.powers;
        let clocks = self.clocks as usize;
        let weight = self.weight as usize;
        let whole = code as usize;
        let location = quotient(whole, weight);
        let mut rest = remainder(whole, weight);
        let mut bases = [0u16; MOST_CLOCKS];
        for k in (1..MOST_CLOCKS).rev() {
            if rest == 0 {
                return Pair { location, bases };
            }
            let power = powers[k] as usize;
            if k < clocks && power <= rest {
                bases[k] = u16::narrow(quotient(rest, power));
                rest = remainder(rest, power);
            }
        }
        bases[0] = u16::narrow(rest);
        Pair { location, bases }
    }

    // The code of a location and bases. Power 0 is 1: the base of clock 0 counts once.
    pub fn pack(self, location: u16, bases: [u16; MOST_CLOCKS]) -> usize
        ensures { Powered self → result ≡ packed self location bases }
    {
        let powers = self.powers;
        let clocks = self.clocks as usize;
        let mut code = usize::from(location) * self.weight as usize + usize::from(bases[0]);
        for k in 1..MOST_CLOCKS {
            if k < clocks {
                code += usize::from(bases[k]) * powers[k] as usize;
            }
        }
        code
    }
}
