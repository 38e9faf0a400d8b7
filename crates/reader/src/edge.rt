// An edge stored at its place in the table, from its record.
ghost use Rattle.std.specs.Prelude.{◌≡◌, ◌≤◌, length};
ghost use Rattle.model.specs.Basics.{zeros};
ghost use Rattle.model.specs.Files.{edge_from};
ghost use Rattle.model.specs.Layout.{text_count, edge_numbers, edge_width};
ghost use Rattle.model.specs.Rules.{plain_edge};
ghost use Rattle.reader.specs.Records.{kind_number};
ghost use Rattle.reader.specs.State.{edge_spelt};

use crate::bytes::copy_numbers;
use crate::record::{Kind, Record};
use model::{
    ATOM_WIDTH, EDGE_COUNT, EDGE_FIELDS, EDGE_KIND, EDGE_SOURCE, FIELDS_BODY, NUMBER_BYTES,
};

// The count of an edge whose text has `length` numbers: of atoms for a plain one, of these numbers for one with groups.
pub(crate) fn text_count(kind: Kind, length: usize) -> usize
    ensures { result ≡ text_count (kind_number kind) length }
{
    if kind == Kind::Plain {
        return length / ATOM_WIDTH;
    }
    length
}

// Writes an edge over 86 zeros: its kind, its four fields, its count, its text.
pub(crate) fn store_edge(record: Record<'_>, edge: &mut [u16])
    requires is_edge { plain_edge ≤ kind_number «record».kind }
    requires wide { length edge.old ≡ edge_width }
    ensures { edge.old ≡ zeros edge_width
        → edge.new ≡ edge_numbers (edge_spelt «record».entry) }
{
    let text = &record.body[FIELDS_BODY..];
    let length = text.len() / NUMBER_BYTES;
    edge[EDGE_KIND] = record.kind.number();
    copy_numbers(record.body, &mut edge[EDGE_SOURCE..EDGE_COUNT]);
    edge[EDGE_COUNT] = text_count(record.kind, length) as u16;
    copy_numbers(text, &mut edge[EDGE_FIELDS..EDGE_FIELDS + length]);
}
