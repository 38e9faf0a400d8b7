// The table builder: rows as sets of codes, numbered by discovery, into the lent tables.
#![tactic(auto)]

ghost use Rattle.std.specs.Prelude.{◌≡◌};
ghost use Rattle.model.specs.Layout.{rule_refusal};
ghost use Rattle.model.specs.Faults.{building_in};
ghost use Rattle.model.specs.Promises.{BuildsTable};
ghost use Rattle.edges.specs.Views.{rule_of};
ghost use Rattle.codes.specs.Codes.{Scaled};
ghost use Rattle.construct.specs.Leaving.{Linked};

use crate::leaving::link_edges;
use bits::Span;
use codes::Scale;
use codes::powers::scale_of;
use edges::StoredRule;
use model::{Built, Fault, Refused, SCRATCH_BITS};
use rule::check_rule;

mod build;
mod cells;
mod leaving;
mod marks;
mod rows;

// What a build goes by: a rule that passed 20 and 21, the links of its edges, and its scale.
#[derive(Clone, Copy)]
pub(crate) struct Plan<'a> {
    pub(crate) rule: StoredRule<'a>,
    pub(crate) links: &'a [u16],
    pub(crate) scale: Scale,
    pub(crate) ghost passed: { (rule_refusal rule.head rule.edges.now).number ≡ 0 },
    pub(crate) ghost linked: { Linked (rule_of rule) links.now },
    pub(crate) ghost scaled: { Scaled (rule_of rule) scale },
}

// What the marks of a next row come with: whether the timer is reset, and where they lie. Both are told in every case.
#[derive(Clone, Copy)]
pub(crate) struct Marked {
    pub(crate) timer: bool,
    pub(crate) span: Span,
}

// Where the row that is marked is found among those already numbered: document 01 fixes this form.
#[derive(Clone, Copy)]
pub(crate) enum Found {
    At(usize),
    Nothing,
}

// What a row's verdict is worked out by: the weight of a location in a code, and the final locations.
#[derive(Clone, Copy)]
pub(crate) struct Finals {
    pub(crate) weight: u32,
    pub(crate) ends: u32,
}

// How far the rows are numbered: their count, how much of the pool they fill, and how many there is room for.
// `last` is the row that was placed last, `before` another one placed before it: where a row is looked for first.
#[derive(Clone, Copy)]
pub(crate) struct Progress {
    pub(crate) rows: usize,
    pub(crate) total: usize,
    pub(crate) room: usize,
    pub(crate) last: usize,
    pub(crate) before: usize,
}

// A cell, and how far the rows are numbered with the row that it leads to.
#[derive(Clone, Copy)]
pub(crate) struct Filled {
    pub(crate) cell: u32,
    pub(crate) progress: Progress,
}

// The table of a rule: 20, 21, 22, then 23 or 24 at the first row that does not fit. 22 is a scratch shorter than
// N / 32 numbers, rounded up.
pub fn build_table(
    rule: StoredRule<'_>,
    scratch: &mut [u32],
    cells: &mut [u32],
    rows: &mut [u32],
    pool: &mut [u32],
) -> Result<Built, Refused>
    ensures { BuildsTable rule.entry.head rule.entry.edges.now scratch.old scratch.new cells.old
        cells.new rows.old rows.new pool.old pool.new (building_in result) }
{
    check_rule(rule)?;
    let scale = scale_of(rule);
    let pairs = rule.head.locations as usize * scale.weight as usize;
    if scratch.len() < pairs.div_ceil(SCRATCH_BITS) {
        return Err(Fault::ShortScratch.into());
    }
    let links = link_edges(rule);
    let plan = Plan {
        rule,
        links: &links,
        scale,
    };
    plan.build_in(scratch, cells, rows, pool)
}
