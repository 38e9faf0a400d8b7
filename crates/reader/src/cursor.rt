// A reading under way: what the records so far hold, and one record more.
ghost use Rattle.std.specs.Prelude.{◌≡◌, List, ℕ, ◌^◌, ◌≤◌, ◌<◌, length, MatchResult};
ghost use Rattle.model.specs.Rules.{Rule, most_locations, plain_edge};
ghost use Rattle.model.specs.Layout.{edge_need};
ghost use Rattle.reader.specs.Records.{kind_number};
ghost use Rattle.reader.specs.State.{head_in, last_in, State, TakenIs, GoesOn, Stops};

use crate::edge::store_edge;
use crate::locations::{Locations, Sizes};
use crate::record::{Kind, Record};
use checks::check_edge;
use edges::{StoredEdge, sizes_ok};
use model::{EDGE_WIDTH, Fault, Head, MOST_CONSTANT, MOST_EDGES};

// The sizes, which come first, the locations and the edge count so far, and the kind of the record before.
#[derive(Clone, Copy)]
pub(crate) struct Cursor {
    last: Kind,
    sizes: Sizes,
    initial: Locations,
    finals: Locations,
    count: u32,
}

impl Cursor {
    // The head record so far.
    pub(crate) fn head(self) -> Head
        ensures { result ≡ head_in self }
    {
        Head {
            locations: self.sizes.locations,
            symbols: self.sizes.symbols,
            clocks: self.sizes.clocks,
            starts: self.initial.mask,
            ends: self.finals.mask,
            count: self.count,
        }
    }

    // The first record, the sizes: 3 where it is another, 5 where L, S or K is outside its range.
    pub(crate) fn first(record: Record<'_>) -> Result<Cursor, Fault>
        ensures { (r : Rule) (t : List ℕ) → State r None t → TakenIs 0 r «record».entry t result }
    {
        if record.kind != Kind::Sizes {
            return Err(Fault::OutOfOrder);
        }
        let locations = record.number(0);
        let symbols = record.number(1);
        let clocks = record.number(2);
        if !sizes_ok(
            usize::from(locations),
            usize::from(symbols),
            usize::from(clocks),
        ) {
            return Err(Fault::BadSizes);
        }
        Ok(Cursor {
            last: Kind::Sizes,
            sizes: Sizes {
                locations: u32::from(locations),
                symbols: u32::from(symbols),
                clocks: u32::from(clocks),
            },
            initial: Locations::NONE,
            finals: Locations::NONE,
            count: 0,
        })
    }

    // An edge, stored at its place in the table and checked there: 4 for edge 257, 6 and 7.
    // The table's length is a clause here and below: a struct around a lent slice would be no plainer for one fact.
    pub(crate) fn with_edge(self, record: Record<'_>, edges: &mut [u16]) -> Result<Cursor, Fault>
        requires is_edge { plain_edge ≤ kind_number «record».kind }
        requires long { edge_need ≤ length edges.old }
        ensures { (r : Rule) → State r (Some self) edges.old → kind_number self.last ≤ kind_number «record».entry.kind
            → TakenIs (kind_number self.last) r «record».entry edges.new result }
    {
        let count = self.count as usize;
        if MOST_EDGES <= count {
            return Err(Fault::EdgeTooMany);
        }
        let first = EDGE_WIDTH * count;
        let place = &mut edges[first..first + EDGE_WIDTH];
        store_edge(record, place);
        check_edge(
            self.head(),
            StoredEdge {
                table: place,
                number: 0,
            },
        )?;
        Ok(Cursor {
            last: record.kind,
            count: self.count + 1,
            ..self
        })
    }

    // A record past the first: 3 where its kind falls, or the sizes or a ceiling come again, then what its kind asks.
    // A ceiling is dropped.
    pub(crate) fn next(self, record: Record<'_>, edges: &mut [u16]) -> Result<Cursor, Fault>
        requires { edge_need ≤ length edges.old }
        ensures { (r : Rule) → State r (Some self) edges.old
            → TakenIs (kind_number self.last) r «record».entry edges.new result }
    {
        let last = record.kind;
        if last < self.last {
            return Err(Fault::OutOfOrder);
        }
        match last {
            Kind::Sizes => Err(Fault::OutOfOrder),
            Kind::Initial => {
                let initial = self
                    .initial
                    .with(u32::from(record.number(0)), self.sizes.locations)?;
                Ok(Cursor {
                    last,
                    initial,
                    ..self
                })
            }
            Kind::Final => {
                let finals = self
                    .finals
                    .with(u32::from(record.number(0)), self.sizes.locations)?;
                Ok(Cursor {
                    last,
                    finals,
                    ..self
                })
            }
            Kind::Ceiling => {
                if self.last == Kind::Ceiling {
                    return Err(Fault::OutOfOrder);
                }
                if MOST_CONSTANT < usize::from(record.number(0)) {
                    return Err(Fault::OutOfRange);
                }
                Ok(Cursor { last, ..self })
            }
            Kind::Plain | Kind::Grouped => self.with_edge(record, edges),
        }
    }
}

// The record at the front of the bytes left, taken, and the bytes after it.
pub(crate) fn read_record<'a>(
    cursor: Option<Cursor>,
    bytes: &'a [u8],
    edges: &mut [u16],
) -> Result<(Cursor, &'a [u8]), Fault>
    requires { edge_need ≤ length edges.old }
    ensures { (r : Rule) → State r cursor edges.old
        → MatchResult result (λ p. GoesOn bytes.now (last_in cursor) r edges.new p.0 p.1.now)
        (λ f. Stops bytes.now (last_in cursor) r f) }
{
    let (record, after) = Record::split_off(bytes)?;
    let next = match cursor {
        None => Cursor::first(record)?,
        Some(cursor) => cursor.next(record, edges)?,
    };
    Ok((next, after))
}
