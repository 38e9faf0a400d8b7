// Rule files read: one pass over the records, each refused or taken into the head record and the edge table.
#![tactic(auto)]

ghost use Rattle.std.specs.Prelude.{◌≡◌};
ghost use Rattle.model.specs.Faults.{reading_in};
ghost use Rattle.model.specs.Rules.{Rule};
ghost use Rattle.model.specs.Promises.{ReadsRule};
ghost use Rattle.reader.specs.State.{State, Finishes, Cleared, ReadsRecords};

pub mod bytes;
pub mod cursor;
pub mod edge;
pub mod locations;
pub mod record;

use crate::cursor::{Cursor, read_record};
use edges::StoredRule;
use model::{EDGE_NEED, Fault, Head, MOST_PAIRS, Refused};

// At the end of the file: 3 where no sizes were read, 8 where N is over 65,536.
pub(crate) fn finish(cursor: Option<Cursor>, edges: &[u16]) -> Result<Head, Fault>
    ensures { (r : Rule) → State r cursor edges.now → Finishes r result }
{
    let Some(cursor) = cursor else {
        return Err(Fault::OutOfOrder);
    };
    let head = cursor.head();
    if MOST_PAIRS < (StoredRule { head, edges }).pairs() {
        return Err(Fault::TooManyPairs);
    }
    Ok(head)
}

// All records, into a table of zeros: 1 to 8, at the place of the record or at the end of the file.
pub(crate) fn read_records(file: &[u8], edges: &mut [u16]) -> Result<Head, Refused>
    requires { Cleared edges.old }
    ensures { ReadsRecords file.now edges.old edges.new result }
{
    let mut cursor = None;
    let mut rest = file;
    // No range: each record says how long it is.
    while !rest.is_empty() {
        let place = file.len() - rest.len();
        let (next, after) = read_record(cursor, rest, edges).map_err(|fault| Refused {
            fault,
            place,
        })?;
        cursor = Some(next);
        rest = after;
    }
    let place = file.len();
    finish(cursor, edges).map_err(|fault| Refused { fault, place })
}

// 20, with the table untouched; else 1 to 8 with a table of zeros, or the rule.
pub fn read_rule(file: &[u8], edges: &mut [u16]) -> Result<Head, Refused>
    ensures { ReadsRule file.now edges.old edges.new (reading_in result) }
{
    if edges.len() < EDGE_NEED {
        return Err(Fault::ShortEdges.into());
    }
    edges.fill(0);
    let outcome = read_records(file, edges);
    if outcome.is_err() {
        edges.fill(0);
    }
    outcome
}
