// Rule files written: the length first, then record by record, each from the place where the one before ended.
#![tactic(auto)]

ghost use Rattle.std.specs.Prelude.{◌≡◌, ◌+◌, ◌*◌, ◌≤◌, length};
ghost use Rattle.model.specs.Rules.{most_edges, most_text};
ghost use Rattle.model.specs.Faults.{answer_in};
ghost use Rattle.model.specs.Files.{number_bytes, location_records, edge_record, edge_records, rule_bytes};
ghost use Rattle.model.specs.Layout.{edges_in, locations_in, rule_in};
ghost use Rattle.model.specs.Promises.{WritesRule};
ghost use Rattle.edges.specs.Views.{edge_of};
ghost use Rattle.writer.specs.Writing.{edge_length, Put, Puts, Table, Writable, Fits};

use crate::output::Output;
use edges::{StoredEdge, StoredRule};
use model::{FIELDS_BODY, Fault, MOST_LOCATIONS, NUMBER_BYTES, Refused};
use numbers::has_bit;
use rule::check_rule;

mod output;

// Bytes of whole records: of the sizes, of one number, of an edge without text.
const SIZES_LENGTH: usize = 10;

const SINGLE_LENGTH: usize = 6;

const EDGE_LENGTH: usize = 12;

impl Output<'_> {
    // The locations of a mask, rising, as records of a kind.
    fn put_locations(&mut self, kind: u16, mask: u32)
        requires { self.old.at + length (location_records kind (locations_in mask)) ≤ length self.old.bytes.now }
        ensures { Put (location_records kind (locations_in mask)) self.old self.new }
    {
        for location in 0..MOST_LOCATIONS as u16 {
            if has_bit(mask as usize, usize::from(location)) {
                self.put(&[2, kind, location]);
            }
        }
    }

    // An edge of either kind: its kind, four numbers, then its text.
    fn put_edge(&mut self, edge: StoredEdge<'_>)
        requires few { length (edge_of edge).text ≤ most_text }
        requires room { self.old.at + length (edge_record (edge_of edge)) ≤ length self.old.bytes.now }
        ensures { Put (edge_record (edge_of edge.entry)) self.old self.new }
    {
        let text = edge.text();
        let body = FIELDS_BODY + NUMBER_BYTES * text.len();
        self.put(&[
            body as u16,
            edge.kind() as u16,
            edge.source() as u16,
            edge.target() as u16,
            edge.symbol() as u16,
            edge.resets() as u16,
        ]);
        self.put(text);
    }

    fn put_edges(&mut self, rule: StoredRule<'_>)
        requires table { Table rule.head.count rule.edges.now }
        requires room { self.old.at + length (edge_records (edges_in rule.head.count rule.edges.now))
            ≤ length self.old.bytes.now }
        ensures { Put (edge_records (edges_in rule.entry.head.count rule.entry.edges.now)) self.old self.new }
    {
        // By number, not in chunks: `put_edge` takes an edge where it is stored.
        for e in 0..rule.head.count {
            self.put_edge(rule.edge(e));
        }
    }

    // The whole file, in the order of the kinds.
    fn put_rule(&mut self, rule: StoredRule<'_>)
        requires { Fits rule.head rule.edges.now self.old }
        ensures { Put (rule_bytes (rule_in rule.entry.head rule.entry.edges.now)) self.old self.new }
    {
        let head = rule.head;
        self.put(&[
            6,
            1,
            head.locations as u16,
            head.symbols as u16,
            head.clocks as u16,
        ]);
        self.put_locations(2, head.starts);
        self.put_locations(3, head.ends);
        self.put_edges(rule);
    }
}

pub(crate) fn edges_length(rule: StoredRule<'_>) -> usize
    requires { Table rule.head.count rule.edges.now }
    ensures { (result ≡ length (edge_records (edges_in rule.entry.head.count rule.entry.edges.now)))
        × (result ≤ (edge_length + number_bytes * most_text) * most_edges) }
{
    let mut length: usize = 0;
    for e in 0..rule.head.count {
        length += EDGE_LENGTH + NUMBER_BYTES * rule.edge(e).text().len();
    }
    length
}

pub(crate) fn file_length(rule: StoredRule<'_>) -> usize
    requires { Writable rule.head rule.edges.now }
    ensures { result ≡ length (rule_bytes (rule_in rule.entry.head rule.entry.edges.now)) }
{
    let locations = rule.head.starts.count_ones() + rule.head.ends.count_ones();
    SIZES_LENGTH + SINGLE_LENGTH * locations as usize + edges_length(rule)
}

// The file at the front of an output, and its length.
fn put_file(rule: StoredRule<'_>, out: &mut [u8]) -> usize
    requires { Writable rule.head rule.edges.now
        × (length (rule_bytes (rule_in rule.head rule.edges.now)) ≤ length out.old) }
    ensures { Puts (rule_bytes (rule_in rule.entry.head rule.entry.edges.now)) out.old 0 out.new result }
{
    let mut file = Output { bytes: out, at: 0 };
    file.put_rule(rule);
    file.at
}

// 20, 21 or 27, with the output untouched; else the file, and its length.
pub fn write_rule(rule: StoredRule<'_>, out: &mut [u8]) -> Result<usize, Refused>
    ensures { WritesRule rule.entry.head rule.entry.edges.now out.old out.new (answer_in (λ n. n) result) }
{
    check_rule(rule)?;
    if out.len() < file_length(rule) {
        return Err(Fault::NoRoomForFile.into());
    }
    Ok(put_file(rule, out))
}
