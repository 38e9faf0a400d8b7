// Two tables, and where both stand. What the fields' facts need stands in this file alone.
ghost use Rattle.std.specs.Prelude.{◌≤◌};
ghost use Rattle.model.specs.Inclusion.{Comparable, joint_count, most_joint_states};
ghost use Rattle.tables.specs.Views.{table_in};
ghost use Rattle.inclusion.specs.Numbers.{Celled};

use tables::Table;

// A row and the age of the timer, in half seconds and cut at the table's top interval. That both lie in their table
// stands in the contracts, no ghost field: it is a fact over a table, which this value does not hold.
#[derive(Clone, Copy)]
pub(crate) struct RowAge {
    pub(crate) row: usize,
    pub(crate) age: usize,
}

// What two tables are in.
#[derive(Clone, Copy)]
pub(crate) struct Joint {
    pub(crate) first: RowAge,
    pub(crate) second: RowAge,
}

// A table in shape.
#[derive(Clone, Copy)]
pub(crate) struct Side<'a> {
    pub(crate) table: Table<'a>,
    ghost celled: { Celled table.built table.cells.now },
}

// Two tables that 25, 35 and 36 let pass.
#[derive(Clone, Copy)]
pub(crate) struct Two<'a> {
    pub(crate) first: Side<'a>,
    pub(crate) second: Side<'a>,
    ghost comparable: { Comparable (table_in first.table) (table_in second.table) },
    ghost states_most: { joint_count first.table.built second.table.built ≤ most_joint_states },
}
