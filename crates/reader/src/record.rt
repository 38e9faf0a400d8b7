// A record of a file: its kind, and a body of a length that the kind has.
ghost use Rattle.std.specs.Prelude.{◌≡◌, ◌&&◌, ◌+◌, ◌-◌, ◌*◌, ◌%◌, ◌<◌, true, eqb, length, MatchResult};
ghost use Rattle.model.specs.Basics.{within};
ghost use Rattle.model.specs.Files.{fields_body, body_ok, number_at, number_bytes};
ghost use Rattle.reader.specs.Records.{kind_number, KindRead, SplitOff, Refuses};

use crate::bytes::number_at;
use model::{
    ATOM_BODY, FIELDS_BODY, Fault, MOST_GROUPED_BODY, MOST_PLAIN_BODY, NUMBER_BYTES, RECORD_HEAD,
    SIZES_BODY,
};

// The kinds of records by their numbers in a file, which has them in this order.
#[derive(Clone, Copy, PartialEq, Eq, PartialOrd, Ord)]
pub(crate) enum Kind {
    Sizes = 1,
    Initial = 2,
    Final = 3,
    Ceiling = 4,
    Plain = 5,
    Grouped = 6,
}

impl TryFrom<u16> for Kind {
    type Error = Fault;

    ghost try_from_gives = { KindRead };

    fn try_from(number: u16) -> Result<Kind, Fault> {
        match number {
            1 => Ok(Kind::Sizes),
            2 => Ok(Kind::Initial),
            3 => Ok(Kind::Final),
            4 => Ok(Kind::Ceiling),
            5 => Ok(Kind::Plain),
            6 => Ok(Kind::Grouped),
            _ => Err(Fault::BadBody),
        }
    }
}

impl Kind {
    pub(crate) fn number(self) -> u16
        ensures { result ≡ kind_number self }
    {
        self as u16
    }

    // Has the kind bodies of so many bytes? An edge has its fields, then whole atoms or, with groups, whole numbers.
    #[tactic(auto, using(crate::proofs::Lengths::grouped_is))]
    pub(crate) fn allows(self, size: usize) -> bool
        ensures { result ≡ body_ok (kind_number self) size }
    {
        match self {
            Kind::Sizes => size == SIZES_BODY,
            Kind::Initial | Kind::Final | Kind::Ceiling => size == NUMBER_BYTES,
            Kind::Plain => edge_body(size, MOST_PLAIN_BODY, ATOM_BODY),
            Kind::Grouped => edge_body(size, MOST_GROUPED_BODY, NUMBER_BYTES),
        }
    }
}

// A body of an edge: its four fields, then whole parts of `width` bytes, `most` bytes in all.
pub(crate) fn edge_body(size: usize, most: usize, width: usize) -> bool
    requires { 0 < width }
    ensures { result ≡ (within fields_body most size && eqb ((size - fields_body) % width) 0) }
{
    FIELDS_BODY <= size && size <= most && (size - FIELDS_BODY) % width == 0
}

#[derive(Clone, Copy)]
pub(crate) struct Record<'a> {
    pub(crate) kind: Kind,
    pub(crate) body: &'a [u8],
    ghost fits: { body_ok (kind_number kind) (length body.now) ≡ true },
}

impl<'a> Record<'a> {
    // The record at the front of the bytes left, and the bytes after it: 1 where they end before it does, 2 where there
    // is no such kind or it has no body of that length.
    pub(crate) fn split_off(bytes: &'a [u8]) -> Result<(Record<'a>, &'a [u8]), Fault>
        ensures { MatchResult result (λ p. SplitOff bytes.now p.0.kind p.0.body.now p.1.now)
            (λ f. Refuses bytes.now f) }
    {
        let Some((head, rest)) = bytes.split_first_chunk::<RECORD_HEAD>() else {
            return Err(Fault::CutShort);
        };
        let size = usize::from(number_at(head, 0));
        let Some((body, after)) = rest.split_at_checked(size) else {
            return Err(Fault::CutShort);
        };
        let kind = Kind::try_from(number_at(head, 1))?;
        if !kind.allows(size) {
            return Err(Fault::BadBody);
        }
        Ok((Record { kind, body }, after))
    }
}

impl Record<'_> {
    // Number `i` of the body.
    pub(crate) fn number(self, i: usize) -> u16
        requires { number_bytes * i + 1 < length self.body.now }
        ensures { result ≡ number_at i self.entry.body.now }
    {
        number_at(self.body, i)
    }
}
