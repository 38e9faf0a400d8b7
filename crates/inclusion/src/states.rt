// A joint state of two tables, by value and as one number for the scratch: half a second's wait, an event, and whether
// only the first accepts there.
ghost use Rattle.std.specs.Prelude.{◌≡◌, ◌&&◌, not, ◌%◌, ◌≤◌, ◌<◌, eqb};
ghost use Rattle.model.specs.Basics.{pick};
ghost use Rattle.model.specs.Walks.{built_width, cell_at};
ghost use Rattle.model.specs.Inclusion.{state_count, joint_count};
ghost use Rattle.model.specs.JointStates.{waited, waits, takes};
ghost use Rattle.inclusion.specs.Numbers.{state_number, state_of, says_row, Inside, in_state};
ghost use Rattle.inclusion.specs.Numbers.{first_in, second_in, Is};
ghost use Rattle.inclusion.specs.Views.{side_of, first_of, second_of, joint_states, number_in};
ghost use Rattle.inclusion.specs.Views.{Inward, ApartIn, StandsIn};

use crate::sides::{Joint, RowAge, Side, Two};

impl Side<'_> {
    // W
    pub(crate) fn width(self) -> usize
        ensures { result ≡ built_width self.entry.table.built }
    {
        self.table.width()
    }

    // R · W
    pub(crate) fn state_count(self) -> usize
        ensures { (result ≡ state_count self.entry.table.built) × (1 ≤ result) }
    {
        self.table.built.rows as usize * self.width()
    }

    // A number taken apart.
    pub(crate) fn apart(self, q: usize) -> RowAge
        requires { q < state_count self.table.built }
        ensures { Is self.entry.table.built result (state_of self.entry.table.built q) }
    {
        let w = self.width();
        RowAge {
            row: q / w,
            age: q % w,
        }
    }

    // A state as a number.
    pub(crate) fn number_of(self, at: RowAge) -> usize
        requires { Inside self.table.built at.row at.age }
        ensures { (result ≡ state_number self.entry.table.built (in_state at))
            × (result < state_count self.entry.table.built) }
    {
        at.row * self.width() + at.age
    }

    // The timer's age, half a second on.
    pub(crate) fn age_on(self, age: usize) -> usize
        requires { age < built_width self.table.built }
        ensures { (result ≡ waited self.entry.table.built.top age) × (result < built_width self.entry.table.built) }
    {
        if age + 1 < self.width() {
            return age + 1;
        }
        age
    }

    // Half a second on: the row stays.
    pub(crate) fn wait_on(self, at: RowAge) -> RowAge
        requires { Inside self.table.built at.row at.age }
        ensures { Is self.entry.table.built result (waits (side_of self.entry) (in_state at)) }
    {
        RowAge {
            row: at.row,
            age: self.age_on(at.age),
        }
    }

    // The cell of a row and an age at a symbol.
    pub(crate) fn cell_of(self, at: RowAge, symbol: usize) -> usize
        requires { Inside self.table.built at.row at.age × (symbol < self.table.built.symbols) }
        ensures { result ≡ cell_at (side_of self.entry) at.row symbol at.age }
    {
        let w = self.width();
        let place = (at.row * self.table.built.symbols as usize + symbol) * w + at.age;
        self.table.cells[place] as usize
    }

    // After an event.
    pub(crate) fn take_from(self, at: RowAge, symbol: usize) -> RowAge
        requires { Inside self.table.built at.row at.age × (symbol < self.table.built.symbols) }
        ensures { Is self.entry.table.built result (takes (side_of self.entry) symbol (in_state at)) }
    {
        let cell = self.cell_of(at, symbol);
        RowAge {
            row: cell / 2,
            age: age_after(cell, at.age),
        }
    }

    // A row's verdict.
    pub(crate) fn says(self, row: usize) -> bool
        requires { row < self.table.built.rows }
        ensures { result ≡ says_row self.entry.table.rows.now row }
    {
        self.table.row_verdict(row as u32) == 1
    }
}

// A timer's age after an event: 0 where the cell resets it.
pub(crate) fn age_after(cell: usize, age: usize) -> usize
    ensures { result ≡ pick (eqb (cell % 2) 1) 0 age }
{
    if cell % 2 == 1 {
        return 0;
    }
    age
}

// R · W of the first times R · W of the second
pub(crate) fn joint_count(first: Side<'_>, second: Side<'_>) -> usize
    ensures { result ≡ joint_count first.entry.table.built second.entry.table.built }
{
    first.state_count() * second.state_count()
}

impl Two<'_> {
    // A number taken apart.
    pub(crate) fn apart(self, x: usize) -> Joint
        requires { x < joint_states self }
        ensures { ApartIn self.entry x result }
    {
        let m = self.second.state_count();
        let first = self.first.apart(x / m);
        let second = self.second.apart(x % m);
        Joint { first, second }
    }

    // Both as one number.
    pub(crate) fn pack(self, j: Joint) -> usize
        requires { Inward self j }
        ensures { (result ≡ number_in self.entry j) × (result < joint_states self.entry) }
    {
        let m = self.second.state_count();
        let q = self.first.number_of(j.first);
        let p = self.second.number_of(j.second);
        q * m + p
    }

    // Both tables, half a second on.
    pub(crate) fn wait_on(self, j: Joint) -> Joint
        requires { Inward self j }
        ensures { StandsIn self.entry result
            (waits (first_of self.entry) (first_in j))
            (waits (second_of self.entry) (second_in j)) }
    {
        let first = self.first.wait_on(j.first);
        let second = self.second.wait_on(j.second);
        Joint { first, second }
    }

    // Both tables after an event.
    pub(crate) fn take_from(self, j: Joint, symbol: usize) -> Joint
        requires { Inward self j × (symbol < (first_of self).built.symbols) }
        ensures { StandsIn self.entry result
            (takes (first_of self.entry) symbol (first_in j))
            (takes (second_of self.entry) symbol (second_in j)) }
    {
        let first = self.first.take_from(j.first, symbol);
        let second = self.second.take_from(j.second, symbol);
        Joint { first, second }
    }

    // Does the first table accept there, and the second not?
    pub(crate) fn only_first(self, j: Joint) -> bool
        requires { Inward self j }
        ensures { result ≡ (says_row (first_of self.entry).rows j.first.row
            && not (says_row (second_of self.entry).rows j.second.row)) }
    {
        self.first.says(j.first.row) && !self.second.says(j.second.row)
    }
}
