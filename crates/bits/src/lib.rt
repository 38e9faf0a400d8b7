// Sets of codes as marks: bits in lent numbers, 32 to a number. Code x is bit x % 32 of number x / 32.
// Total: a code past the lent numbers is not marked, and can not be. What a function says of marks, it says for a span
// that they lie in.
#![tactic(auto)]

ghost use Rattle.std.specs.Prelude.{◌≡◌, [], ◌+◌, ◌≤◌, length};
ghost use Rattle.numbers.specs.Lent.{laid};
ghost use Rattle.model.specs.Basics.{zeros};
ghost use Rattle.model.specs.Tables.{scratch_bits};
ghost use Rattle.model.specs.Rules.{most_pairs};
ghost use Rattle.model.specs.Construction.{with_code};
ghost use Rattle.bits.specs.Bits.{marked, all_marked, number_codes, codes_in, InSpan, CanMark, MarksAre};

use model::{MOST_SCRATCH, SCRATCH_BITS};
use numbers::at_or;

// The marks lie in the numbers from `low` on and below `past`, and `count` codes are marked.
// Apart from the marks: a struct over both would hold InSpan, which `mark` can not keep, as it asks nothing of a code.
#[derive(Clone, Copy)]
pub struct Span {
    pub low: usize,
    pub past: usize,
    pub count: usize,
}

// The span of no marks.
pub fn span_of_none(marks: &[u32]) -> Span
    ensures { marks.now ≡ zeros (length marks.now) → MarksAre [] marks.now result }
{
    Span {
        low: marks.len(),
        past: 0,
        count: 0,
    }
}

// Is a code marked?
pub fn is_marked(marks: &[u32], code: usize) -> bool
    ensures { result ≡ marked marks.now code }
{
    let number = at_or(marks, code / SCRATCH_BITS, 0);
    (number >> (code % SCRATCH_BITS)) % 2 == 1
}

// Are all codes of a row marked?
pub fn all_marked(marks: &[u32], row: &[u32]) -> bool
    ensures { result ≡ all_marked marks.now row.now }
{
    row.iter().all(|code| is_marked(marks, *code as usize))
}

// Marks a code, and counts it where it was not marked.
pub fn mark(marks: &mut [u32], span: Span, code: usize) -> Span
    ensures { CanMark marks.old span code
        → MarksAre (with_code code (codes_in marks.old)) marks.new result }
{
    let at = code / SCRATCH_BITS;
    if marks.len() <= at || is_marked(marks, code) {
        return span;
    }
    marks[at] |= 1 << (code % SCRATCH_BITS);
    Span {
        low: span.low.min(at),
        past: span.past.max(at + 1),
        count: span.count.saturating_add(1),
    }
}

// Writes the codes of one number, ascending, at a place; answers the place after them.
pub(crate) fn lay_number(bits: u32, first: usize, out: &mut [u32], at: usize) -> usize
    requires { first + scratch_bits ≤ most_pairs }
    ensures { at + length (number_codes scratch_bits first bits) ≤ length out.old
        → (result ≡ at + length (number_codes scratch_bits first bits))
        × (out.new ≡ laid out.old at (number_codes scratch_bits first bits)) }
{
    let mut rest = bits;
    let mut to = at;
    // A `while`: the library has no iterator over the bits that are set, and one of our own would hold this loop.
    while rest != 0 {
        if out.len() <= to {
            return to;
        }
        let place = rest.trailing_zeros();
        out[to] = (first + place as usize) as u32;
        rest -= 1 << place;
        to += 1;
    }
    to
}

// Writes the codes that are marked, ascending, into a table that just holds them.
pub fn lay_codes(marks: &[u32], span: Span, out: &mut [u32])
    ensures { InSpan marks.now span → length out.old ≡ span.count
        → out.new ≡ codes_in marks.now }
{
    let past = span.past.min(marks.len()).min(MOST_SCRATCH);
    let mut to = 0;
    for k in span.low..past {
        to = lay_number(marks[k], SCRATCH_BITS * k, out, to);
    }
}

// Takes the marks away. Mostly they lie in one number, so the first stands before the rest, of which the compiler makes
// a call.
pub fn unmark(marks: &mut [u32], span: Span)
    ensures { InSpan marks.old span → marks.new ≡ zeros (length marks.old) }
{
    let low = span.low;
    let past = span.past.min(marks.len());
    if past <= low {
        return;
    }
    marks[low] = 0;
    let next = low + 1;
    marks[next..past].fill(0);
}
