// A bank of configurations in a lent slice: K + 1 numbers each, the location and then the ages.
ghost use Rattle.std.specs.Prelude.{◌≡◌, [], ◌∷◌, ◌++◌, ◌+◌, ◌-◌, ◌*◌, ◌≤◌, ◌<◌, length, take};
ghost use Rattle.std.specs.Slice.Iter.{chunks_exact_rest, chunks_exact_size};
ghost use Rattle.model.specs.Rules.{most_clocks};
ghost use Rattle.model.specs.Runs.{has_config, with_config};
ghost use Rattle.ages.specs.Ages.{config_of, same_config};
ghost use Rattle.exact.specs.Chunks.{config_in, any_final, Loaded};

use ages::{Ages, Configuration, has_location};
use model::Age;
use numbers::at_or;
use std::slice::ChunksExact;

// The configuration of K + 1 numbers. All four ages are read; those past the rule's clocks are not looked at.
pub(crate) fn load(numbers: &[u32]) -> Configuration
    ensures { Loaded numbers.now result }
{
    let ages = Ages {
        of: [
            Age(at_or(numbers, 1, 0)),
            Age(at_or(numbers, 2, 0)),
            Age(at_or(numbers, 3, 0)),
            Age(at_or(numbers, 4, 0)),
        ],
    };
    Configuration {
        location: at_or(numbers, 0, 0),
        ages,
    }
}

// The configuration is written as K + 1 numbers.
fn store(numbers: &mut [u32], c: Configuration)
    requires { (0 < length numbers.old) × (length numbers.old ≤ most_clocks + 1) }
    ensures { config_in numbers.new ≡ config_of (length numbers.old - 1) c }
{
    numbers[0] = c.location;
    for k in 1..numbers.len() {
        numbers[k] = at_or(&c.ages.of, k - 1, Age(0)).0;
    }
}

// Is the configuration the one of these numbers? Most differ in their location, so the ages are read only after it.
fn is_same(numbers: &[u32], clocks: usize, c: Configuration) -> bool
    requires { (clocks ≤ most_clocks) × (length numbers.now ≡ clocks + 1) }
    ensures { result ≡ same_config (config_of clocks c) (config_in numbers.now) }
{
    if numbers[0] != c.location {
        return false;
    }
    let known = load(numbers);
    c.same(known, clocks)
}

// So many configurations `held`, at the front of the numbers.
#[derive(Drop)]
pub(crate) struct Bank<'a> {
    pub(crate) numbers: &'a mut [u32],
    pub(crate) clocks: usize,
    pub(crate) held: usize,
    pub(crate) ghost clocks_most: { clocks ≤ most_clocks },
    pub(crate) ghost held_fits: { held * (clocks + 1) ≤ length numbers.now },
}

impl<'a> Bank<'a> {
    ghost use Rattle.exact.specs.Banks.{configs_of, Holds, Empty};

    // With nothing in it yet.
    pub(crate) fn new(numbers: &'a mut [u32], clocks: usize) -> Bank<'a>
        requires { clocks ≤ most_clocks }
        ensures { Empty clocks (length numbers.old) result }
    {
        Bank {
            numbers,
            clocks,
            held: 0,
        }
    }

    // The numbers of each configuration.
    pub(crate) fn chunks(&self) -> ChunksExact<'_, u32>
        ensures size { chunks_exact_size result ≡ self.now.clocks + 1 }
        ensures rest { chunks_exact_rest result ≡ take (self.now.held * (self.now.clocks + 1)) self.now.numbers.now }
    {
        let width = self.clocks + 1;
        let end = self.held * width;
        self.numbers[..end].chunks_exact(width)
    }

    // Is the configuration in the bank?
    fn has(&self, c: Configuration) -> bool
        ensures { result ≡ has_config (config_of self.now.clocks c) (configs_of self.now) }
    {
        for numbers in self.chunks() {
            if is_same(numbers, self.clocks, c) {
                return true;
            }
        }
        false
    }

    // The configuration behind those that are there, or none if there is no room for it.
    pub(crate) fn append(&mut self, c: Configuration) -> Option<()>
        ensures { Holds self.old (configs_of self.old ++ (config_of self.old.clocks c ∷ [])) self.new result }
    {
        let width = self.clocks + 1;
        let at = self.held * width;
        if self.numbers.len() - at < width {
            return None;
        }
        let end = at + width;
        store(&mut self.numbers[at..end], c);
        self.held += 1;
        Some(())
    }

    // The same, unless it is there already.
    pub(crate) fn add(&mut self, c: Configuration) -> Option<()>
        ensures { Holds self.old (with_config (config_of self.old.clocks c) (configs_of self.old)) self.new result }
    {
        if self.has(c) {
            return Some(());
        }
        self.append(c)
    }

    // Is one of them at a location of the set?
    pub(crate) fn some_at(&self, set: u32) -> bool
        ensures { result ≡ any_final set (configs_of self.now) }
    {
        for numbers in self.chunks() {
            if has_location(set, numbers[0]) {
                return true;
            }
        }
        false
    }
}
