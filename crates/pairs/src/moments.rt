// The clocks of a pair at an interval of the timer: the regions that they read, and their bases at a target.
ghost use Rattle.std.specs.Prelude.{◌≡◌};
ghost use Rattle.model.specs.Construction.{region_of, regions_of};
ghost use Rattle.pairs.specs.Pairs.{advanced_base, moved_base, moved_bases};

use model::MOST_CLOCKS;
use numbers::has_bit;

// The number of an interval of the timer, with cm, past which clocks are not told apart.
#[derive(Clone, Copy)]
pub struct Moment {
    pub top: u8,
    pub interval: u32,
}

impl Moment {
    // A clock's region: its base plus the timer's interval, and at most "above cm", which is 2 · cm + 1.
    fn region(self, base: u16) -> u32
        ensures { result ≡ region_of self.top base self.interval }
    {
        let sum = 2 * usize::from(base) + self.interval as usize;
        let above = 2 * usize::from(self.top) + 1;
        sum.min(above) as u32
    }

    // What the clocks of a pair read: their regions.
    pub fn readings(self, bases: [u16; MOST_CLOCKS]) -> [u32; MOST_CLOCKS]
        ensures { result ≡ regions_of self.top self.interval bases }
    {
        bases.map(|base| self.region(base))
    }

    // A base after the interval has passed, cut at "above cm".
    pub fn advance(self, base: u16) -> u16
        ensures { result ≡ advanced_base self.top self.interval base }
    {
        let sum = usize::from(base) + self.interval as usize / 2;
        let above = usize::from(self.top) + 1;
        sum.min(above) as u16
    }

    // The base of clock `k` at an edge's target: brought forward where the timer is reset, zero if the edge resets it.
    pub fn moved_base(self, mask: usize, k: usize, timer: bool, base: u16) -> u16
        ensures { result ≡ moved_base mask k timer self.top self.interval base }
    {
        if has_bit(mask, k) {
            return 0;
        }
        if timer { self.advance(base) } else { base }
    }

    // The bases at an edge's target.
    pub fn moved(self, mask: usize, timer: bool, bases: [u16; MOST_CLOCKS]) -> [u16; MOST_CLOCKS]
        ensures { result ≡ moved_bases mask timer self.top self.interval bases }
    {
        let mut next = bases;
        for (k, base) in next.iter_mut().enumerate() {
            *base = self.moved_base(mask, k, timer, *base);
        }
        next
    }
}
