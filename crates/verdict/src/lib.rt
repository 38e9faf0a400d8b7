// Demand 3 in one call: the reader, the builder and the table runner in a row, from the bytes of a file to the answer.
#![tactic(auto)]

ghost use Rattle.model.specs.Basics.{one_if};
ghost use Rattle.model.specs.Faults.{answer_in};
ghost use Rattle.model.specs.Promises.{Decides};

use construct::build_table;
use edges::StoredRule;
use model::Refused;
use reader::read_rule;
use tables::Table;
use walk::run_table;

// The first refusal met, with its place, or whether the rule in the file accepts the word.
pub fn decide(
    file: &[u8],
    edges: &mut [u16],
    scratch: &mut [u32],
    cells: &mut [u32],
    rows: &mut [u32],
    pool: &mut [u32],
    grain: u32,
    symbols: &[u16],
    stamps: &[u32],
) -> Result<bool, Refused>
    ensures { Decides file.now edges.old edges.new scratch.old
        scratch.new cells.old cells.new rows.old rows.new
        pool.old pool.new grain symbols.now stamps.now (answer_in one_if result) }
{
    // Not by `?`: that a refusal loses its number or its place is then one word's change, and seen.
    let head = match read_rule(file, edges) {
        Ok(head) => head,
        Err(unread) => return Err(unread),
    };
    let built = match build_table(StoredRule { head, edges }, scratch, cells, rows, pool) {
        Ok(built) => built,
        Err(unbuilt) => return Err(unbuilt),
    };
    let table = Table {
        built,
        cells,
        rows,
        pool,
    };
    run_table(table, grain, symbols, stamps)
}
