// One event: from the configurations in one bank to those that it leads to, in the other.
ghost use Rattle.std.specs.Prelude.{◌≡◌};
ghost use Rattle.exact.specs.Banks.{configs_of, Holds};
ghost use Rattle.exact.specs.Ready.{by_edges_of, by_configs_of, Stepping};

use crate::bank::{Bank, load};
use ages::Configuration;
use edges::StoredRule;
use model::Age;

// The configurations that the edges lead to from one, added to the bank.
pub(crate) fn by_edges(
    rule: StoredRule<'_>,
    grain: u32,
    symbol: u16,
    from: Configuration,
    bank: &mut Bank<'_>,
) -> Option<()>
    requires { bank.old.clocks ≡ rule.head.clocks }
    ensures { Holds bank.old
        (by_edges_of rule.entry.head.clocks rule.entry.head.count rule.entry.edges.now grain symbol from
        (configs_of bank.old))
        bank.new result }
{
    for e in 0..rule.head.count {
        let edge = rule.edge(e);
        if from.can_take(edge, bank.clocks, grain, symbol) {
            let next = from.after_edge(edge);
            bank.add(next)?;
        }
    }
    Some(())
}

// The configurations of one bank, after the delay: what they lead to is gathered in the other.
pub(crate) fn by_configs(
    rule: StoredRule<'_>,
    grain: u32,
    symbol: u16,
    delay: Age,
    from: &Bank<'_>,
    to: &mut Bank<'_>,
) -> Option<()>
    requires { Stepping rule.head.clocks delay.0 from.now to.old }
    ensures { Holds to.old
        (by_configs_of rule.entry.head rule.entry.edges.now grain symbol delay.0 (configs_of from.now))
        to.new result }
{
    to.held = 0;
    for numbers in from.chunks() {
        let before = load(numbers);
        let after = before.after_delay(delay);
        by_edges(rule, grain, symbol, after, to)?;
    }
    Some(())
}
