// The timer's interval numbers: 2c is [c], 2c + 1 is (c, c + 1), and 2 · cm + 1 is everything above cm.
// Total: a D of 0 has the interval that the definition gives it.
#![tactic(auto)]

ghost use Rattle.std.specs.Prelude.{◌≡◌};
ghost use Rattle.model.specs.Construction.{top_interval, interval_of};

use model::Age;

#[derive(Clone, Copy)]
pub struct Interval(pub u64);

impl Interval {
    // [0]
    pub const ZERO: Interval = Interval(0);

    // Everything above cm.
    pub fn top(cm: u32) -> Interval
        ensures { result.0 ≡ top_interval cm }
    {
        Interval(2 * u64::from(cm) + 1)
    }

    // The interval that an age lies in, for a cm and D as `grain`.
    pub fn of(age: Age, cm: u32, grain: u32) -> Interval
        ensures { result.0 ≡ interval_of cm grain age.0 }
    {
        let a = u64::from(age.0);
        let d = u64::from(grain);
        if a == 0 {
            return Interval::ZERO;
        }
        if u64::from(cm) * d < a {
            return Interval::top(cm);
        }
        let whole = a / d;
        if a % d == 0 {
            return Interval(2 * whole);
        }
        Interval(2 * whole + 1)
    }
}
