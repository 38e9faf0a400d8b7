// Numbers at other widths, division by any number, bits of a mask, and lent tables by place.
// Total: a number that does not fit is cut, a place past the end of a table holds 0.
#![tactic(auto)]

ghost use Rattle.std.specs.Prelude.{◌≡◌, ℕ, ◌%◌, ◌^◌, get_or, take, drop};
ghost use Rattle.model.specs.Basics.{bit};
ghost use Rattle.model.specs.Basics.{lesser as lesser_of, larger as larger_of};
ghost use Rattle.model.specs.Basics.{quotient as quotient_of, remainder as remainder_of};

// Cuts a number to the width of a type.
pub trait Narrow: Sized {
    ghost bits: { ℕ };

    ghost value: { Self → ℕ };

    fn narrow(x: usize) -> Self
        ensures { value result ≡ x % 2 ^ bits };
}

impl Narrow for u8 {
    ghost bits = { 8 };

    ghost value = { λ x. x };

    fn narrow(x: usize) -> u8 {
        (x % 256) as u8
    }
}

impl Narrow for u16 {
    ghost bits = { 16 };

    ghost value = { λ x. x };

    fn narrow(x: usize) -> u16 {
        (x % 65536) as u16
    }
}

impl Narrow for u32 {
    ghost bits = { 32 };

    ghost value = { λ x. x };

    fn narrow(x: usize) -> u32 {
        (x % 4294967296) as u32
    }
}

pub fn lesser(a: usize, b: usize) -> usize
    ensures { result ≡ lesser_of a b }
{
    a.min(b)
}

pub fn larger(a: usize, b: usize) -> usize
    ensures { result ≡ larger_of a b }
{
    a.max(b)
}

// Division by any number: 0 by 0.
pub fn quotient(a: usize, b: usize) -> usize
    ensures { result ≡ quotient_of a b }
{
    a.checked_div(b).unwrap_or(0)
}

pub fn remainder(a: usize, b: usize) -> usize
    ensures { result ≡ remainder_of a b }
{
    a.checked_rem(b).unwrap_or(0)
}

// Is bit `place` set in a mask?
pub fn has_bit(mask: usize, place: usize) -> bool
    ensures { result ≡ bit place mask }
{
    place < 64 && (mask >> place) % 2 == 1
}

// What stands at a place of a table; `none` past its end.
pub fn at_or<T: Copy>(table: &[T], at: usize, none: T) -> T
    ensures { result ≡ get_or table.now at none }
{
    table.get(at).copied().unwrap_or(none)
}

// The part of a table from a place on, of `count` numbers or as many as there are.
pub fn part_of<T>(table: &[T], start: usize, count: usize) -> &[T]
    ensures { result.now ≡ take count (drop start table.now) }
{
    if table.len() <= start {
        return &table[0..0];
    }
    if table.len() - start <= count {
        return &table[start..];
    }
    let end = start + count;
    &table[start..end]
}
