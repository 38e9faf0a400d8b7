// Texts of edges of kind 6: the group rules, and the atoms, one after the other.
// Total: a number past the end of a text is 0, and a mark that opens nothing and is no atom closes.
#![tactic(auto)]

ghost use Rattle.std.specs.Prelude.{◌≡◌, drop, eqb, position};
ghost use Rattle.model.specs.Texts.{is_atom, opens_group, atoms_past, open_mark, groups_ok};
ghost use Rattle.texts.specs.Atoms.{NextAtom, outermost};
ghost use Rattle.texts.specs.Marks.{mark_of};

use model::{
    ATOM_WIDTH, CLOSES, IS_ATOM, MOST_GROUPED_ATOMS, MOST_GROUPS, MOST_LEVELS, OPENS_ALL, OPENS_ANY,
};

// What a number of a text says where a mark is due: that a group opens, that an atom's three numbers follow, that the
// group closes. Any other number is no mark: it breaks the group rules, and is taken for one that closes.
#[derive(Clone, Copy, PartialEq, Eq)]
pub enum Mark {
    OpensAll,
    OpensAny,
    IsAtom,
    Closes,
    Other,
}

impl From<u16> for Mark {
    ghost from_gives = { λ number mark. mark ≡ mark_of number };

    fn from(number: u16) -> Mark {
        match usize::from(number) {
            OPENS_ALL => Mark::OpensAll,
            OPENS_ANY => Mark::OpensAny,
            IS_ATOM => Mark::IsAtom,
            CLOSES => Mark::Closes,
            _ => Mark::Other,
        }
    }
}

// A mark that opens a group, by its number: what a text holds is any number, and the definition is of numbers.
pub fn opens(mark: usize) -> bool
    ensures { result ≡ opens_group mark }
{
    mark == OPENS_ALL || mark == OPENS_ANY
}

// The mark that may open a group at a level: any-of in an all-of, all-of in an any-of.
pub(crate) fn open_mark(level: usize) -> Mark
    ensures { result ≡ mark_of (open_mark level) }
{
    if level % 2 == 0 {
        Mark::OpensAny
    } else {
        Mark::OpensAll
    }
}

// What is left of a text from a place on; nothing past its end.
pub fn text_from(text: &[u16], at: usize) -> &[u16]
    ensures { result.now ≡ drop at text.now }
{
    text.get(at..).unwrap_or(&[])
}

// Does a text keep the group rules?
pub fn groups_ok(text: &[u16]) -> bool
    ensures { result ≡ groups_ok text.now }
{
    let mut rest = text;
    let mut level: usize = 0;
    let mut groups = MOST_GROUPS;
    let mut atoms = MOST_GROUPED_ATOMS;
    // No iterator of the library: an atom takes four numbers, any other mark one.
    while let [number, behind @ ..] = rest {
        match Mark::from(*number) {
            Mark::IsAtom => {
                if atoms < 1 {
                    return false;
                }
                if behind.len() < ATOM_WIDTH {
                    return false;
                }
                atoms -= 1;
                rest = text_from(behind, ATOM_WIDTH);
            }
            Mark::Closes => {
                if level < 1 {
                    return false;
                }
                level -= 1;
                rest = behind;
            }
            mark => {
                if mark != open_mark(level) || MOST_LEVELS <= level + 1 || groups < 1 {
                    return false;
                }
                level += 1;
                groups -= 1;
                rest = behind;
            }
        }
    }
    level == 0
}

// The first mark of an atom.
pub(crate) fn atom_mark(text: &[u16]) -> Option<usize>
    ensures { result ≡ position (λ n. eqb n is_atom) text.now }
{
    text.iter()
        .position(|number| usize::from(*number) == IS_ATOM)
}

// Where the three numbers of the next atom stand, from a place on, in whatever group; past the text if there is none.
pub fn next_atom(text: &[u16], from: usize) -> usize
    ensures { NextAtom (atoms_past 0) text.now from result }
{
    match atom_mark(text_from(text, from)) {
        Some(passed) => from + passed + 1,
        None => text.len() + 1,
    }
}

// The same on the outermost level, from a place on that level on, behind the groups that open and close there.
pub fn outer_atom(text: &[u16], from: usize) -> usize
    ensures { NextAtom outermost text.now from result }
{
    let mut rest = text_from(text, from);
    let mut depth: usize = 0;
    // As above: the steps differ.
    while let [number, behind @ ..] = rest {
        match Mark::from(*number) {
            Mark::IsAtom => {
                if depth == 0 {
                    return text.len() - behind.len();
                }
                rest = text_from(behind, ATOM_WIDTH);
            }
            Mark::OpensAll | Mark::OpensAny => {
                depth += 1;
                rest = behind;
            }
            Mark::Closes | Mark::Other => {
                if depth == 0 {
                    return text.len() + 1;
                }
                depth -= 1;
                rest = behind;
            }
        }
    }
    text.len() + 1
}
