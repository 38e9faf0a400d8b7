// The edge table by place: an edge's fields and its text, and what the sizes of a rule give, cm, powers and N.
// Total: a place past the end of the table holds 0, as in the definitions.
#![tactic(auto)]

ghost use Rattle.std.specs.Prelude.{◌≡◌, ◌^◌, ◌*◌, ◌≤◌, ◌<◌, ltb, get_or, drop};
ghost use Rattle.model.specs.Basics.{within};
ghost use Rattle.model.specs.Rules.{atoms_of, cm, largest_constant, most_clocks, most_pairs};
ghost use Rattle.model.specs.Rules.{sizes_ok};
ghost use Rattle.model.specs.Layout.{edge_width, text_length};
ghost use Rattle.edges.specs.Counts.{count_at};
ghost use Rattle.edges.specs.Powers.{small_power, small_pairs};
ghost use Rattle.edges.specs.Views.{edge_of, rule_of};

use crate::atoms::{Atoms, Grouped, Plain, Walk};
use model::{
    ATOM_WIDTH, EDGE_COUNT, EDGE_FIELDS, EDGE_KIND, EDGE_RESETS, EDGE_SOURCE, EDGE_SYMBOL,
    EDGE_TARGET, EDGE_WIDTH, Head, MOST_CLOCKS, MOST_CONSTANT, MOST_LOCATIONS, MOST_PAIRS,
    MOST_SYMBOLS, PLAIN_EDGE,
};
use numbers::{at_or, part_of};

pub mod atoms;

// An edge of an edge table, by its number.
#[derive(Clone, Copy)]
pub struct StoredEdge<'a> {
    pub table: &'a [u16],
    pub number: u32,
}

impl<'a> StoredEdge<'a> {
    // Where its fields begin.
    fn start(self) -> usize
        ensures { (result ≡ edge_width * self.entry.number) × (result < 2 ^ 40) }
    {
        EDGE_WIDTH * self.number as usize
    }

    // The number at a place of its fields.
    fn field(self, place: usize) -> usize
        requires { place < 2 ^ 16 }
        ensures { (result ≡ get_or (drop (edge_width * self.entry.number) self.entry.table.now) place 0)
            × (result < 2 ^ 16) }
    {
        usize::from(at_or(self.table, self.start() + place, 0))
    }

    // A number, as it stands: a table filled by hand may hold any, and the definitions tell each (`edge_of`).
    pub fn kind(self) -> usize
        ensures { (result ≡ (edge_of self.entry).kind) × (result < 2 ^ 16) }
    {
        self.field(EDGE_KIND)
    }

    // The location that it leaves.
    pub fn source(self) -> usize
        ensures { (result ≡ (edge_of self.entry).source) × (result < 2 ^ 16) }
    {
        self.field(EDGE_SOURCE)
    }

    // The location that it leads to.
    pub fn target(self) -> usize
        ensures { (result ≡ (edge_of self.entry).target) × (result < 2 ^ 16) }
    {
        self.field(EDGE_TARGET)
    }

    // The symbol that it is taken on.
    pub fn symbol(self) -> usize
        ensures { (result ≡ (edge_of self.entry).symbol) × (result < 2 ^ 16) }
    {
        self.field(EDGE_SYMBOL)
    }

    // The mask of the clocks that it resets.
    pub fn resets(self) -> usize
        ensures { (result ≡ (edge_of self.entry).resets) × (result < 2 ^ 16) }
    {
        self.field(EDGE_RESETS)
    }

    // Its count: of atoms for kind 5, of the numbers of its text for kind 6.
    pub fn count(self) -> usize
        ensures { (result ≡ count_at self.entry.number self.entry.table.now) × (result < 2 ^ 16) }
    {
        self.field(EDGE_COUNT)
    }

    // Its text, or as much of it as the table holds.
    pub fn text(self) -> &'a [u16]
        ensures { result.now ≡ (edge_of self.entry).text }
    {
        let length = text_length(self.kind(), self.count());
        part_of(self.table, self.start() + EDGE_FIELDS, length)
    }

    // The largest constant in its atoms, 0 if there is none.
    fn top(self) -> usize
        ensures { result ≡ largest_constant (atoms_of (edge_of self.entry)) }
    {
        if self.kind() == PLAIN_EDGE {
            largest(Atoms::<Plain>::of(self.text()))
        } else {
            largest(Atoms::<Grouped>::of(self.text()))
        }
    }
}

// A rule as reading a file leaves it: its head record and its edge table.
#[derive(Clone, Copy)]
pub struct StoredRule<'a> {
    pub head: Head,
    pub edges: &'a [u16],
}

impl<'a> StoredRule<'a> {
    pub fn edge(self, e: u32) -> StoredEdge<'a>
        ensures { (result.table.now ≡ self.entry.edges.now) × (result.number ≡ e) }
    {
        StoredEdge {
            table: self.edges,
            number: e,
        }
    }

    // cm: the largest constant in any atom, 0 if there is none.
    pub fn top(self) -> usize
        ensures { result ≡ cm (rule_of self.entry) }
    {
        let mut most: usize = 0;
        for e in 0..self.head.count {
            most = most.max(self.edge(e).top());
        }
        most
    }

    // N = L · (cm + 2)^K, for at most 32 locations, 4 clocks and a cm of at most 30; 0 for others.
    pub fn pairs(self) -> usize
        ensures { result ≡ small_pairs self.entry.head self.entry.edges.now }
    {
        let locations = self.head.locations as usize;
        let clocks = self.head.clocks as usize;
        if MOST_LOCATIONS < locations || MOST_CLOCKS < clocks {
            return 0;
        }
        let top = self.top();
        if MOST_CONSTANT < top {
            return 0;
        }
        locations * power(top + 2, clocks)
    }
}

// The largest constant in some atoms, 0 if there is none.
fn largest<W: Walk>(atoms: Atoms<'_, W>) -> usize
    ensures { result ≡ largest_constant (W.atoms (drop atoms.entry.from atoms.entry.text.now)) }
{
    atoms.fold(0, |most, atom| most.max(atom.constant))
}

// How many numbers the text of an edge has, by its kind and its count.
fn text_length(kind: usize, count: usize) -> usize
    requires { count < 2 ^ 16 }
    ensures { result ≡ text_length kind count }
{
    if kind == PLAIN_EDGE {
        ATOM_WIDTH * count
    } else {
        count
    }
}

// base ^ exponent, for a base below 65,536 and an exponent of at most 4; 0 for others.
pub fn power(base: usize, exponent: usize) -> usize
    ensures { result ≡ small_power base exponent }
{
    if MOST_PAIRS <= base || MOST_CLOCKS < exponent {
        return 0;
    }
    small_power(base, exponent)
}

fn small_power(base: usize, exponent: usize) -> usize
    requires { (base < most_pairs) × (exponent ≤ most_clocks) }
    ensures { result ≡ base ^ exponent }
{
    let mut power: usize = 1;
    for _ in 0..exponent {
        power *= base;
    }
    power
}

pub(crate) fn in_range(x: usize, most: usize) -> bool
    ensures { result ≡ within 1 most x }
{
    1 <= x && x <= most
}

// L, S and K in their ranges.
pub fn sizes_ok(locations: usize, symbols: usize, clocks: usize) -> bool
    ensures { result ≡ sizes_ok locations symbols clocks }
{
    in_range(locations, MOST_LOCATIONS)
        && in_range(symbols, MOST_SYMBOLS)
        && in_range(clocks, MOST_CLOCKS)
}

// Whether a mask has no bit at or past `bits`.
pub fn mask_ok(mask: usize, bits: usize) -> bool
    ensures { result ≡ ltb mask (2 ^ bits) }
{
    // Not `checked_shr`: it takes a number of 32 bits, and `bits` may be any.
    if 63 < bits {
        return true;
    }
    mask >> bits == 0
}
