// Guards over what the clocks read: ages in D-ths of a second, or regions. One code for both, as there is one
// definition. `readings` has a number for each clock; `unit` is what one of a constant is in it: D where the clocks
// read ages, 2 where they read regions.
// Total: a number past the end of a text is 0, and so is what a clock past the readings reads.
#![tactic(auto)]

ghost use Rattle.std.specs.Prelude.{◌≡◌, MatchOption};
ghost use Rattle.model.specs.Texts.{plain_atoms, flat};
ghost use Rattle.model.specs.Rules.{plain_edge, guard_of};
ghost use Rattle.model.specs.Guards.{related, meets, guard, is_met};
ghost use Rattle.edges.specs.Views.{edge_of};
ghost use Rattle.guards.specs.Atoms.{atom_of};

use crate::groups::first_member;
use edges::StoredEdge;
use model::{
    ATOM_WIDTH, EDGE_COUNT, EDGE_FIELDS, EDGE_KIND, EDGE_WIDTH, MOST_ATOMS, MOST_RELATION,
    PLAIN_EDGE,
};
use numbers::{at_or, has_bit};

mod groups;

// The relations that hold of a value below its limit, at it and above it: a bit for each by its code, that is less, at
// most, equal, at least, greater, not equal. A test by these sets takes no branch on the relation.
const BELOW: usize = 0b100011;

const AT_LIMIT: usize = 0b001110;

const ABOVE: usize = 0b111000;

// Does a relation hold? A code past the last one is taken for not equal.
pub(crate) fn relate(relation: usize, value: usize, limit: usize) -> bool
    ensures { result ≡ related relation value limit }
{
    let code = relation.min(MOST_RELATION);
    if value < limit {
        return has_bit(BELOW, code);
    }
    if limit < value {
        return has_bit(ABOVE, code);
    }
    has_bit(AT_LIMIT, code)
}

// An atom as a text spells it: a clock, a relation by its code, a whole constant. Not `edges::Atom`, whose numbers are
// widened: here it is tested where it stands, which builds and runs spend their time in.
#[derive(Clone, Copy)]
pub(crate) struct StoredAtom {
    pub clock: u16,
    pub relation: u16,
    pub constant: u16,
}

impl StoredAtom {
    // Does it hold? The readings and the unit stay two, here and below: a value of both goes through memory at each
    // call of a group, which makes edges with groups slower by a sixth.
    pub(crate) fn holds(self, readings: &[u32], unit: u32) -> bool
        ensures { result ≡ meets unit readings.now (atom_of self) }
    {
        let value = at_or(readings, usize::from(self.clock), 0) as usize;
        let limit = usize::from(self.constant) * unit as usize;
        relate(usize::from(self.relation), value, limit)
    }
}

// A text of kind 5, atom by atom: it holds, or the first atom, by position from 0, that does not.
// Counted by hand: with a chain over chunks_exact(3) the check leaves a goal about the chunks that it does not close.
pub(crate) fn first_plain(text: &[u16], readings: &[u32], unit: u32) -> Option<usize>
    ensures { result ≡ guard unit readings.now (flat (plain_atoms text.now)) }
{
    let mut rest = text;
    let mut position: usize = 0;
    while let [clock, relation, constant, behind @ ..] = rest {
        let atom = StoredAtom {
            clock: *clock,
            relation: *relation,
            constant: *constant,
        };
        if !atom.holds(readings, unit) {
            return Some(position);
        }
        position += 1;
        rest = behind;
    }
    None
}

// The guard of an edge: it holds, or the first member of its outermost level, by position from 0, that does not.
pub fn guard_of(edge: StoredEdge<'_>, readings: &[u32], unit: u32) -> Option<usize>
    ensures { result ≡ guard unit readings.now (guard_of (edge_of edge.entry)) }
{
    if edge.kind() == PLAIN_EDGE {
        return first_plain(edge.text(), readings, unit);
    }
    first_member(edge.text(), readings, unit)
}

// The text of an edge of kind 5 that stands whole in the table, with no more atoms than it may have, as each edge of
// kind 5 of a rule does. Its places are tested once, for all of its atoms.
pub(crate) fn whole_text(edge: StoredEdge<'_>) -> Option<&[u16]>
    ensures { MatchOption result (Unit {0})
        (λ text. ((edge_of edge.entry).kind ≡ plain_edge) × (text.now ≡ (edge_of edge.entry).text)) }
{
    let table = edge.table;
    let place = EDGE_WIDTH * edge.number as usize;
    if table.len() < place + EDGE_WIDTH {
        return None;
    }
    if usize::from(table[place + EDGE_KIND]) != PLAIN_EDGE {
        return None;
    }
    let count = usize::from(table[place + EDGE_COUNT]);
    if MOST_ATOMS < count {
        return None;
    }
    let first = place + EDGE_FIELDS;
    let past = first + ATOM_WIDTH * count;
    Some(&table[first..past])
}

// Does the guard of an edge hold? Atoms of kind 5 are read where they stand. For any other edge, table and readings are
// lent anew: so they stay in registers in the test in place, which builds and runs spend their time in.
pub fn guard_holds(edge: StoredEdge<'_>, readings: &[u32], unit: u32) -> bool
    ensures { result ≡ is_met (guard unit readings.now (guard_of (edge_of edge.entry))) }
{
    if let Some(text) = whole_text(edge) {
        return first_plain(text, readings, unit).is_none();
    }
    let table = edge.table;
    let anew = StoredEdge {
        table: &table[0..],
        number: edge.number,
    };
    guard_of(anew, &readings[0..], unit).is_none()
}
