// The checks of an edge of the table: its fields, the group rules, its atoms one after the other, and the pin of its
// resets. The reader and the check of a rule share them.
// Total: a place past the end of the table holds 0.
#![tactic(auto)]

ghost use Rattle.std.specs.Prelude.{◌≡◌, ◌||◌, eqb, drop};
ghost use Rattle.model.specs.Texts.{outer};
ghost use Rattle.model.specs.Rules.{guard_in, atoms_in, atom_ok, atoms_ok, has_atom, pins, is_pinned};
ghost use Rattle.edges.specs.Atoms.{atom_of};
ghost use Rattle.edges.specs.Views.{numbers_of};
ghost use Rattle.checks.specs.Checks.{fields_ok, text_kept, edge_fault, number_in};

use edges::atoms::{Atom, Atoms, Grouped, Outermost, Plain, Walk};
use edges::{StoredEdge, mask_ok};
use model::{
    AT_LEAST, AT_MOST, EQUAL, Fault, GROUPED_EDGE, Head, MOST_CONSTANT, MOST_RELATION, PLAIN_EDGE,
};
use texts::groups_ok;

// Source, target, symbol and reset mask in range.
pub(crate) fn fields_ok(head: Head, edge: StoredEdge<'_>) -> bool
    ensures { result ≡ fields_ok head (numbers_of edge.entry) }
{
    let locations = head.locations as usize;
    edge.source() < locations
        && edge.target() < locations
        && edge.symbol() < head.symbols as usize
        && mask_ok(edge.resets(), head.clocks as usize)
}

// A text of kind 6 keeps the group rules.
pub(crate) fn text_ok(kind: usize, text: &[u16]) -> bool
    ensures { result ≡ text_kept kind text.now }
{
    kind != GROUPED_EDGE || groups_ok(text)
}

// Clock, relation and constant in range.
pub(crate) fn atom_ok(atom: Atom, clocks: usize) -> bool
    ensures { result ≡ atom_ok clocks (atom_of atom) }
{
    atom.clock < clocks && atom.relation <= MOST_RELATION && atom.constant <= MOST_CONSTANT
}

pub(crate) fn all_ok<W: Walk>(mut atoms: Atoms<'_, W>, clocks: usize) -> bool
    ensures { result ≡ atoms_ok clocks (W.atoms (drop atoms.entry.from atoms.entry.text.now)) }
{
    atoms.all(|atom| atom_ok(atom, clocks))
}

// Each atom in range, in whatever group.
pub(crate) fn atoms_ok(kind: usize, text: &[u16], clocks: usize) -> bool
    ensures { result ≡ atoms_ok clocks (atoms_in kind text.now) }
{
    if kind == PLAIN_EDGE {
        all_ok(Atoms::<Plain>::of(text), clocks)
    } else {
        all_ok(Atoms::<Grouped>::of(text), clocks)
    }
}

pub(crate) fn has_atom<W: Walk>(mut atoms: Atoms<'_, W>, wanted: Atom) -> bool
    ensures { result ≡ has_atom wanted.clock wanted.relation wanted.constant
        (W.atoms (drop atoms.entry.from atoms.entry.text.now)) }
{
    atoms.any(|atom| atom == wanted)
}

// Does an atom pin its clock, among all atoms of its level? An at-least needs its partner.
pub(crate) fn pins<W: Walk>(among: Atoms<'_, W>, atom: Atom) -> bool
    ensures { result ≡ pins (W.atoms (drop among.entry.from among.entry.text.now)) (atom_of atom) }
{
    let partner = Atom {
        relation: AT_MOST,
        ..atom
    };
    atom.relation == EQUAL || atom.relation == AT_LEAST && has_atom(among, partner)
}

// Does some atom pin?
pub(crate) fn any_pins<W: Walk>(among: Atoms<'_, W>) -> bool
    ensures { result ≡ is_pinned (W.atoms (drop among.entry.from among.entry.text.now)) }
{
    let mut atoms = among;
    atoms.any(|atom| pins(among, atom))
}

// Does some atom on the outermost level pin?
#[tactic(auto, using(crate::proofs::Walks::flat_outer))]
pub(crate) fn is_pinned(kind: usize, text: &[u16]) -> bool
    ensures { result ≡ is_pinned (outer (guard_in kind text.now)) }
{
    if kind == PLAIN_EDGE {
        any_pins(Atoms::<Plain>::of(text))
    } else {
        any_pins(Atoms::<Outermost>::of(text))
    }
}

// Integer reset: an edge that resets any clock is pinned, on the outermost level of its guard.
pub(crate) fn integer_reset(kind: usize, resets: usize, text: &[u16]) -> bool
    ensures { result ≡ (eqb resets 0 || is_pinned (outer (guard_in kind text.now))) }
{
    resets == 0 || is_pinned(kind, text)
}

// 6 for a number outside its range or a text that breaks the group rules, 7 for resets that are not pinned.
// Kind and text are read once. Written into its callers, whose edges are tables of 86 numbers of their own: there no
// place is tested against the end of the table.
#[inline(always)]
#[tactic(auto, unfolding(crate::specs::Checks::edge_fault))]
pub fn check_edge(head: Head, edge: StoredEdge<'_>) -> Result<(), Fault>
    ensures { number_in result ≡ edge_fault head (numbers_of edge.entry) }
{
    let kind = edge.kind();
    let text = edge.text();
    if !fields_ok(head, edge)
        || !text_ok(kind, text)
        || !atoms_ok(kind, text, head.clocks as usize)
    {
        return Err(Fault::OutOfRange);
    }
    if !integer_reset(kind, edge.resets(), text) {
        return Err(Fault::NotPinned);
    }
    Ok(())
}
