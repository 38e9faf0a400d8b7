// The atoms that a text spells, one after the other, as values.
// Total: a number past the end of a text is 0.
ghost use Rattle.std.specs.Prelude.{◌≡◌, ◌≤◌, List, ℕ, length, drop};
ghost use Rattle.std.specs.Iterator.{YieldsFirstBy, item_count};
ghost use Rattle.model.specs.Texts.{Atom as AtomOf, atom_at, plain_atoms, atoms_past};
ghost use Rattle.texts.specs.Atoms.{outermost};
ghost use Rattle.edges.specs.Atoms.{atom_of, NextIs};

use model::{ATOM_CONSTANT, ATOM_RELATION, ATOM_WIDTH};
use numbers::at_or;
use std::marker::PhantomData;
use texts::{next_atom, outer_atom};

// Its relation is a number, as it stands: a text may hold any, and `related` takes one past the last for not equal.
#[derive(Clone, Copy, PartialEq, Eq)]
pub struct Atom {
    pub clock: usize,
    pub relation: usize,
    pub constant: usize,
}

impl Atom {
    // The atom whose three numbers stand at a place.
    fn at(text: &[u16], at: usize) -> Atom
        requires { at ≤ length text.now }
        ensures { atom_of result ≡ atom_at at text.now }
    {
        Atom {
            clock: usize::from(at_or(text, at, 0)),
            relation: usize::from(at_or(text, at + ATOM_RELATION, 0)),
            constant: usize::from(at_or(text, at + ATOM_CONSTANT, 0)),
        }
    }
}

// A way to walk over the atoms of a text. A type of its own for each, so that no atom is asked which way it is.
pub trait Walk: Copy {
    ghost atoms: { List ℕ → List AtomOf };

    // The next atom from a place on, and the place behind it.
    fn next(text: &[u16], from: usize) -> Option<(Atom, usize)>
        ensures { NextIs atoms text.now from result };
}

// Over a text that has nothing but atoms; over one with groups, all atoms in whatever group; over those in no group.
#[derive(Clone, Copy)]
pub struct Plain;

#[derive(Clone, Copy)]
pub struct Grouped;

#[derive(Clone, Copy)]
pub struct Outermost;

impl Walk for Plain {
    ghost atoms = { plain_atoms };

    #[tactic(auto, using(crate::proofs::PlainAtoms::plain_none))]
    fn next(text: &[u16], from: usize) -> Option<(Atom, usize)> {
        // The last place where an atom may begin is the same for each, so that a loop over them asks for it once.
        if text.len() < ATOM_WIDTH || text.len() - ATOM_WIDTH < from {
            return None;
        }
        let atom = Atom {
            clock: usize::from(text[from]),
            relation: usize::from(text[from + ATOM_RELATION]),
            constant: usize::from(text[from + ATOM_CONSTANT]),
        };
        Some((atom, from + ATOM_WIDTH))
    }
}

impl Walk for Grouped {
    ghost atoms = { atoms_past 0 };

    fn next(text: &[u16], from: usize) -> Option<(Atom, usize)> {
        let at = next_atom(text, from);
        if text.len() < at {
            return None;
        }
        Some((Atom::at(text, at), at + ATOM_WIDTH))
    }
}

impl Walk for Outermost {
    ghost atoms = { outermost };

    fn next(text: &[u16], from: usize) -> Option<(Atom, usize)> {
        let at = outer_atom(text, from);
        if text.len() < at {
            return None;
        }
        Some((Atom::at(text, at), at + ATOM_WIDTH))
    }
}

// The atoms of a text from a place on.
#[derive(Clone, Copy)]
pub struct Atoms<'a, W> {
    text: &'a [u16],
    from: usize,
    walk: PhantomData<W>,
}

impl<'a, W: Walk> Atoms<'a, W> {
    pub fn of(text: &'a [u16]) -> Atoms<'a, W>
        ensures { W.atoms (drop result.from result.text.now) ≡ W.atoms text.now }
    {
        Atoms {
            text,
            from: 0,
            walk: PhantomData,
        }
    }
}

impl<W: Walk> Iterator for Atoms<'_, W> {
    type Item = Atom;

    ghost next_gives = { YieldsFirstBy atom_of (λ s. W.atoms (drop s.from s.text.now)) };

    ghost remaining = { item_count (λ s. W.atoms (drop s.from s.text.now)) };

    fn next(&mut self) -> Option<Atom> {
        let (atom, past) = W::next(self.text, self.from)?;
        self.from = past;
        Some(atom)
    }
}
