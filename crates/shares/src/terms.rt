// A share in lowest terms, by Euclid's turns; two shares compared exactly.
ghost use Rattle.std.specs.Prelude.{◌≡◌, ◌≤◌, length};
ghost use Rattle.model.specs.Shares.{common, share_width, share, smaller};

// The greatest number that divides both.
pub(crate) fn greatest_common(a: u32, b: u32) -> u32
    requires { 1 ≤ b }
    ensures { result ≡ common a b }
{
    let mut x = a;
    let mut y = b;
    // A `while`: the turns end where a remainder does, nothing is counted or gone over.
    while y != 0 {
        let rest = x % y;
        x = y;
        y = rest;
    }
    x
}

// A share's four numbers: accepted, out of, numerator, denominator.
pub(crate) fn lay_share(accepted: u32, words: u32, place: &mut [u32])
    requires { (1 ≤ words) × (length place.old ≡ share_width) }
    ensures { place.new ≡ share accepted words }
{
    let by = greatest_common(accepted, words);
    let numerator = accepted / by;
    let denominator = words / by;
    place.copy_from_slice(&[accepted, words, numerator, denominator]);
}

// Is a of b a smaller share than c of d? Products of 64 bits.
pub(crate) fn is_smaller(a: u32, b: u32, c: u32, d: u32) -> bool
    ensures { result ≡ smaller a b c d }
{
    u64::from(a) * u64::from(d) < u64::from(c) * u64::from(b)
}
