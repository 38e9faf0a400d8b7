// The scale of a rule, with the powers of cm + 2: worked out once in a build.
ghost use Rattle.std.specs.Prelude.{◌≡◌, ◌≤◌};
ghost use Rattle.model.specs.Rules.{most_clocks, most_constant};
ghost use Rattle.model.specs.Layout.{rule_refusal};
ghost use Rattle.edges.specs.Views.{rule_of};
ghost use Rattle.codes.specs.Powers.{powers_of};
ghost use Rattle.codes.specs.Codes.{scale_of, small_scale, Scaled};

use crate::{POWER_PLACES, Scale};
use edges::StoredRule;
use model::{MOST_CLOCKS, MOST_CONSTANT};
use numbers::Narrow;

// The powers 0 to K of cm + 2; the places past K are zero.
pub(crate) fn powers_of(top: u32, clocks: usize) -> [u32; POWER_PLACES]
    requires { (top ≤ most_constant) × (clocks ≤ most_clocks) }
    ensures { result ≡ powers_of top clocks }
{
    let mut powers = [0u32; POWER_PLACES];
    let mut power: u32 = 1;
    powers[0] = power;
    for k in 0..clocks {
        power = power * (top + 2);
        powers[k + 1] = power;
    }
    powers
}

// The scale of cm and K in their ranges.
pub(crate) fn scale_in(top: u8, clocks: u32) -> Scale
    requires { (top ≤ most_constant) × (clocks ≤ most_clocks) }
    ensures { result ≡ scale_of top clocks }
{
    let powers = powers_of(u32::from(top), clocks as usize);
    Scale {
        clocks,
        top,
        weight: powers[clocks as usize],
        powers,
    }
}

// The scale of cm and K; no scale, all zero, where one of them is past its range: the clause gives one for any two.
pub fn scale_by(top: u8, clocks: u32) -> Scale
    ensures { result ≡ small_scale top clocks }
{
    if MOST_CONSTANT < usize::from(top) || MOST_CLOCKS < clocks as usize {
        return Scale::default();
    }
    scale_in(top, clocks)
}

// The scale of a rule, if it passes 20 and 21.
pub fn scale_of(rule: StoredRule<'_>) -> Scale
    ensures { (rule_refusal rule.entry.head rule.entry.edges.now).number ≡ 0 → Scaled (rule_of rule.entry) result }
{
    scale_by(u8::narrow(rule.top()), rule.head.clocks)
}
