// Guards of atoms in groups: the text of an edge of kind 6.
// All-of and any-of call each other, with what is left of the text past the mark that opens a group. They stay two
// functions with a body each: document 01 has it so, and one body would be given the other as a closure.
// Total: a mark that opens nothing and is no atom closes, and so does the end of the text.
ghost use Rattle.std.specs.Prelude.{◌≡◌, true, false, drop};
ghost use Rattle.model.specs.Texts.{atom_at, members_in};
ghost use Rattle.model.specs.Guards.{meets, guard};
ghost use Rattle.guards.specs.Atoms.{atom_of};
ghost use Rattle.guards.specs.Groups.{Evaluated};

use crate::StoredAtom;
use model::{ATOM_RELATION, ATOM_WIDTH};
use numbers::at_or;
use texts::{Mark, text_from};

// A group's answer: whether it holds, and where the text goes on past its closing mark. Both are told in every case, so
// it is no Option.
#[derive(Clone, Copy)]
pub(crate) struct Group {
    pub holds: bool,
    pub past: usize,
}

// The atom whose three numbers a text begins with, and what is left past it; a number past the end is 0.
pub(crate) fn first_atom(text: &[u16]) -> (StoredAtom, &[u16])
    ensures atom { atom_of result.0 ≡ atom_at 0 text.now }
    ensures past { result.1.now ≡ drop 3 text.now }
{
    if let [clock, relation, constant, past @ ..] = text {
        let atom = StoredAtom {
            clock: *clock,
            relation: *relation,
            constant: *constant,
        };
        return (atom, past);
    }
    let atom = StoredAtom {
        clock: at_or(text, 0, 0),
        relation: at_or(text, ATOM_RELATION, 0),
        constant: 0,
    };
    (atom, &text[text.len()..])
}

// An all-of group, from past its opening mark.
#[cycle(all_of_any_of)]
pub(crate) fn all_of(text: &[u16], readings: &[u32], unit: u32) -> Group
    ensures { Evaluated true (meets unit readings.now) text.now result }
{
    let mut holds = true;
    let mut rest = text;
    while let [number, behind @ ..] = rest {
        match Mark::from(*number) {
            Mark::IsAtom => {
                let (atom, past) = first_atom(behind);
                let met = atom.holds(readings, unit);
                holds = holds & met;
                rest = past;
            }
            Mark::OpensAll | Mark::OpensAny => {
                let inner = any_of(behind, readings, unit);
                holds = holds & inner.holds;
                rest = &behind[inner.past..];
            }
            Mark::Closes | Mark::Other => {
                let past = text.len() - behind.len();
                return Group { holds, past };
            }
        }
    }
    let past = text.len();
    Group { holds, past }
}

// An any-of group, from past its opening mark.
#[cycle(all_of_any_of)]
pub(crate) fn any_of(text: &[u16], readings: &[u32], unit: u32) -> Group
    ensures { Evaluated false (meets unit readings.now) text.now result }
{
    let mut holds = false;
    let mut rest = text;
    while let [number, behind @ ..] = rest {
        match Mark::from(*number) {
            Mark::IsAtom => {
                let (atom, past) = first_atom(behind);
                let met = atom.holds(readings, unit);
                holds = holds | met;
                rest = past;
            }
            Mark::OpensAll | Mark::OpensAny => {
                let inner = all_of(behind, readings, unit);
                holds = holds | inner.holds;
                rest = &behind[inner.past..];
            }
            Mark::Closes | Mark::Other => {
                let past = text.len() - behind.len();
                return Group { holds, past };
            }
        }
    }
    let past = text.len();
    Group { holds, past }
}

// The outermost level, an all-of that no mark opens: it holds, or its first member, by position from 0, that does not.
pub(crate) fn first_member(text: &[u16], readings: &[u32], unit: u32) -> Option<usize>
    ensures { result ≡ guard unit readings.now (members_in text.now) }
{
    let mut rest = text;
    // Counted by hand: members are of different lengths, so no iterator of the library goes over them.
    let mut position: usize = 0;
    while let [number, behind @ ..] = rest {
        match Mark::from(*number) {
            Mark::IsAtom => {
                let (atom, past) = first_atom(behind);
                if !atom.holds(readings, unit) {
                    return Some(position);
                }
                rest = past;
            }
            Mark::OpensAll | Mark::OpensAny => {
                let inner = any_of(behind, readings, unit);
                if !inner.holds {
                    return Some(position);
                }
                rest = &behind[inner.past..];
            }
            Mark::Closes | Mark::Other => return None,
        }
        position += 1;
    }
    None
}
