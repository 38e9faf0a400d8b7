// Whether a head record and an edge table are what reading some accepted file leaves: refusals 20 and 21.
// A direct test in one pass; no file is built.
#![tactic(auto)]

ghost use Rattle.std.specs.Prelude.{◌≡◌, ◌≤◌, IsTrue, length};
ghost use Rattle.model.specs.Faults.{answer_in};
ghost use Rattle.model.specs.Rules.{plain_edge, most_edges};
ghost use Rattle.model.specs.Layout.{edge_need, edge_width, is_readable};
ghost use Rattle.model.specs.Promises.{ChecksRule};
ghost use Rattle.numbers.specs.Lent.{all_zero};
ghost use Rattle.rule.specs.Checks.{head_good, count_ok, front_counted, unused_zero, edge_good, edges_good};

use checks::check_edge;
use edges::{StoredEdge, StoredRule, mask_ok, sizes_ok};
use model::{
    EDGE_FIELDS, EDGE_NEED, EDGE_WIDTH, Fault, GROUPED_EDGE, Head, MOST_ATOMS, MOST_EDGES,
    MOST_PAIRS, MOST_TEXT, PLAIN_EDGE, Refused,
};

// Refused with 20 or 21.
pub fn check_rule(rule: StoredRule<'_>) -> Result<(), Refused>
    ensures { ChecksRule rule.entry.head rule.entry.edges.now (answer_in (λ u. 0) result) }
{
    if rule.edges.len() < EDGE_NEED {
        return Err(Fault::ShortEdges.into());
    }
    if !readable(rule) {
        return Err(Fault::NotReadable.into());
    }
    Ok(())
}

pub(crate) fn readable(rule: StoredRule<'_>) -> bool
    requires { edge_need ≤ length rule.edges.now }
    ensures { result ≡ is_readable rule.entry.head rule.entry.edges.now }
{
    if !head_ok(rule.head) {
        return false;
    }
    edges_ok(rule) && rule.pairs() <= MOST_PAIRS
}

#[tactic(auto, unfolding(crate::specs::Checks::head_good))]
pub(crate) fn head_ok(head: Head) -> bool
    ensures { result ≡ head_good head }
{
    let locations = head.locations as usize;
    sizes_ok(locations, head.symbols as usize, head.clocks as usize)
        && mask_ok(head.starts as usize, locations)
        && mask_ok(head.ends as usize, locations)
        && head.count as usize <= MOST_EDGES
}

// Every edge, of a kind not below the one before, then zeros up to the end of the table. An edge is handed on at its
// fixed length.
pub(crate) fn edges_ok(rule: StoredRule<'_>) -> bool
    requires { (rule.head.count ≤ most_edges) × (edge_need ≤ length rule.edges.now) }
    ensures { result ≡ edges_good rule.entry.head plain_edge rule.entry.head.count rule.entry.edges.now }
{
    let past = EDGE_WIDTH * rule.head.count as usize;
    let mut last = PLAIN_EDGE;
    for edge in rule.edges[..past].chunks_exact(EDGE_WIDTH) {
        let kind = StoredEdge {
            table: edge,
            number: 0,
        }
        .kind();
        if kind < last || !edge_ok(rule.head, edge) {
            return false;
        }
        last = kind;
    }
    all_zero(&rule.edges[past..])
}

// A kind that edges have, and a count that the kind has.
pub(crate) fn count_ok(kind: usize, count: usize) -> bool
    ensures { result ≡ count_ok kind count }
{
    match kind {
        PLAIN_EDGE => count <= MOST_ATOMS,
        GROUPED_EDGE => count <= MOST_TEXT,
        _ => false,
    }
}

// The edge at the front of a table.
#[tactic(auto, unfolding(crate::specs::Checks::edge_good))]
pub(crate) fn edge_ok(head: Head, table: &[u16]) -> bool
    requires { edge_width ≤ length table.now }
    ensures { result ≡ edge_good head table.now }
{
    let edge = StoredEdge { table, number: 0 };
    count_ok(edge.kind(), edge.count()) && check_edge(head, edge).is_ok() && unused_zero(table)
}

// The places of text that the edge at the front of a table does not have.
pub(crate) fn unused_zero(table: &[u16]) -> bool
    requires { (edge_width ≤ length table.now) × IsTrue (front_counted table.now) }
    ensures { result ≡ unused_zero table.now }
{
    let past = EDGE_FIELDS + StoredEdge { table, number: 0 }.text().len();
    all_zero(&table[past..EDGE_WIDTH])
}

// No way out of the loop: many places are then looked at in one step.
#[tactic(auto, using(crate::proofs::Laws::none_seen))]
pub(crate) fn all_zero(places: &[u16]) -> bool
    ensures { result ≡ all_zero places.now }
{
    places.iter().fold(0, |seen, place| seen | *place) == 0
}
