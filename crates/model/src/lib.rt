// The plain records that cross every call, and the two kinds of time. What they mean stands in specs/.
#![tactic(auto)]

ghost use Rattle.std.specs.Prelude.{◌≡◌, ◌-◌};
ghost use Rattle.model.specs.Faults.{fault_number, at_once, answer_in, reading_in, building_in, started_in};

// The limits of document 01 and the layouts of file and tables. Each has its name in specs/, as `edge_width` for
// EDGE_WIDTH; what is a place inside an edge or a row has none.
pub const MOST_LOCATIONS: usize = 32;

pub const MOST_SYMBOLS: usize = 16;

pub const MOST_CLOCKS: usize = 4;

pub const MOST_EDGES: usize = 256;

pub const MOST_ATOMS: usize = 8;

pub const MOST_RELATION: usize = 5;

pub const MOST_CONSTANT: usize = 30;

// The relations that pin, by their codes in an atom.
pub const AT_MOST: usize = 1;

pub const EQUAL: usize = 2;

pub const AT_LEAST: usize = 3;

pub const MOST_PAIRS: usize = 65536;

pub const MOST_GRAIN: usize = 1000;

pub const MOST_EVENTS: usize = 4096;

pub const MOST_BRANCH_EVENTS: usize = 12;

pub const MOST_ROWS: usize = 4096;

// The sizes of a list of words: its events and whole seconds at most, and its D.
pub const MOST_LISTED_EVENTS: usize = 6;

pub const MOST_SECONDS: usize = 30;

pub const LIST_GRAIN: usize = 2;

// The joint states of two tables that may be searched.
pub const MOST_JOINT_STATES: usize = 1000000;

// Shares of a list: the words that are counted at most, the tables of a batch, the numbers of a share, of a line, of a
// batch's lines; a line's last share, in all.
pub const MOST_WORDS: usize = 1000000;

pub const MOST_TABLES: usize = 16;

pub const SHARE_WIDTH: usize = 4;

pub const LINE_WIDTH: usize = 32;

pub const LINES_WIDTH: usize = 512;

pub const LINE_IN_ALL: usize = 28;

// The kinds of edges: with atoms, all of which must hold, and with atoms in groups.
pub const PLAIN_EDGE: usize = 5;

pub const GROUPED_EDGE: usize = 6;

// The marks of a text with groups.
pub const OPENS_ALL: usize = 1;

pub const OPENS_ANY: usize = 2;

pub const IS_ATOM: usize = 3;

pub const CLOSES: usize = 4;

// The group rules: levels, the outermost included, opened groups, atoms; and the numbers that they make at most.
pub const MOST_LEVELS: usize = 4;

pub const MOST_GROUPS: usize = 8;

pub const MOST_GROUPED_ATOMS: usize = 16;

pub const MOST_TEXT: usize = 80;

// Bytes of a file: of a number, of body length and kind, of the bodies of sizes, an edge's four fields, an atom and the
// longest edge of either kind.
pub const NUMBER_BYTES: usize = 2;

pub const RECORD_HEAD: usize = 4;

pub const SIZES_BODY: usize = 6;

pub const FIELDS_BODY: usize = 8;

pub const ATOM_BODY: usize = 6;

pub const MOST_PLAIN_BODY: usize = 56;

pub const MOST_GROUPED_BODY: usize = 168;

// An edge of the table: kind, source, target, symbol, reset mask, the count of atoms or of text numbers, then 80 places
// of text; an atom is clock, relation, constant.
pub const EDGE_KIND: usize = 0;

pub const EDGE_SOURCE: usize = 1;

pub const EDGE_TARGET: usize = 2;

pub const EDGE_SYMBOL: usize = 3;

pub const EDGE_RESETS: usize = 4;

pub const EDGE_COUNT: usize = 5;

pub const EDGE_FIELDS: usize = 6;

pub const ATOM_RELATION: usize = 1;

pub const ATOM_CONSTANT: usize = 2;

pub const ATOM_WIDTH: usize = 3;

pub const EDGE_WIDTH: usize = 86;

pub const EDGE_NEED: usize = 22016;

// A row of the table: start and length in the pool, and the stored verdict.
pub const ROW_LENGTH: usize = 1;

pub const ROW_VERDICT: usize = 2;

pub const ROW_WIDTH: usize = 3;

// The build scratch: one bit for each code, so many to a number; and the numbers that serve every rule.
pub const SCRATCH_BITS: usize = 32;

pub const MOST_SCRATCH: usize = 2048;

// A time since the start of the word, in D-ths of a second.
#[repr(C)]
#[derive(Clone, Copy, PartialEq, Eq, PartialOrd, Ord)]
pub struct Stamp(pub u32);

// A time since a reset, in D-ths of a second.
#[repr(C)]
#[derive(Clone, Copy, PartialEq, Eq, PartialOrd, Ord)]
pub struct Age(pub u32);

impl Stamp {
    // The age at this stamp of what was reset at an earlier one; 0 where `earlier` is not earlier.
    pub fn since(self, earlier: Stamp) -> Age
        ensures { result.0 ≡ self.0 - earlier.0 }
    {
        Age(self.0.saturating_sub(earlier.0))
    }
}

// Why a call is refused. Each has its number in the documents, and `number` gives it.
#[derive(Clone, Copy, PartialEq, Eq)]
pub enum Fault {
    CutShort = 1,
    BadBody = 2,
    OutOfOrder = 3,
    EdgeTooMany = 4,
    BadSizes = 5,
    OutOfRange = 6,
    NotPinned = 7,
    TooManyPairs = 8,
    ShortEdges = 20,
    NotReadable = 21,
    ShortScratch = 22,
    NoRoomForRow = 23,
    NoRoomForCodes = 24,
    OutOfShape = 25,
    NoRoomForConfiguration = 26,
    NoRoomForFile = 27,
    BadGrain = 30,
    BadCount = 31,
    UnknownSymbol = 32,
    FallingStamp = 33,
    Strayed = 34,
    OtherSymbols = 35,
    NoRoomForStates = 36,
    NoRoomForWord = 37,
    BadSpan = 38,
    NotListed = 39,
    BadBatch = 40,
    LongList = 43,
}

impl Fault {
    // The documents' number.
    pub fn number(self) -> u8
        ensures { result ≡ fault_number self }
    {
        self as u8
    }
}

// A refusal: why, and at which place.
#[derive(Clone, Copy, PartialEq, Eq)]
pub struct Refused {
    pub fault: Fault,
    pub place: usize,
}

// A refusal of the call as a whole has place 0.
impl From<Fault> for Refused {
    ghost from_gives = { λ fault refused. refused ≡ at_once fault };

    fn from(fault: Fault) -> Refused {
        Refused { fault, place: 0 }
    }
}

// The head record of a rule: sizes, initial and final locations as masks, the edge count.
#[repr(C)]
#[derive(Clone, Copy)]
pub struct Head {
    pub locations: u32,
    pub symbols: u32,
    pub clocks: u32,
    pub starts: u32,
    pub ends: u32,
    pub count: u32,
}

impl Head {
    // No rule.
    pub const NONE: Head = Head {
        locations: 0,
        symbols: 0,
        clocks: 0,
        starts: 0,
        ends: 0,
        count: 0,
    };
}

// The built record of a table: sizes, cm as `top`, final locations as a mask, the row count R, the pool total P.
#[repr(C)]
#[derive(Clone, Copy)]
pub struct Built {
    pub locations: u32,
    pub symbols: u32,
    pub clocks: u32,
    pub top: u32,
    pub ends: u32,
    pub rows: u32,
    pub total: u32,
}

impl Built {
    // No table.
    pub const NONE: Built = Built {
        locations: 0,
        symbols: 0,
        clocks: 0,
        top: 0,
        ends: 0,
        rows: 0,
        total: 0,
    };
}

// The records that cross a call to C. Their numbers and flags are the C interface; inside, outcomes are Results.
// In every answer: the number of the refusal, 0 for none, and its place.
// The value is the bytes written, or 1 for yes and 0 for no; 0 on a refusal.
#[repr(C)]
#[derive(Clone, Copy)]
pub struct Answer {
    pub number: u8,
    pub place: usize,
    pub value: usize,
}

#[repr(C)]
#[derive(Clone, Copy)]
pub struct Reading {
    pub number: u8,
    pub place: usize,
    pub head: Head,
}

#[repr(C)]
#[derive(Clone, Copy)]
pub struct Building {
    pub number: u8,
    pub place: usize,
    pub built: Built,
}

// A run that accepts: its start and its edges, by number. All zero where there is none.
// `held`: a guard held the rule back at the first event; its member at `position`, from 0, is the first that does not
// hold. Both are zero where a run accepts, and wherever no guard is to be named.
#[repr(C)]
#[derive(Clone, Copy)]
pub struct Branch {
    pub number: u8,
    pub place: usize,
    pub found: bool,
    pub start: u16,
    pub edges: [u16; 12],
    pub held: bool,
    pub position: usize,
}

// One timer over a table: D as `grain`, the row, the stamp of the last timer reset, the last stamp, the event count.
#[repr(C)]
#[derive(Clone, Copy)]
pub struct Follower {
    pub grain: u32,
    pub row: u32,
    pub reset: Stamp,
    pub last: Stamp,
    pub count: u32,
}

impl Follower {
    // No follower: all zero, D too.
    pub const NONE: Follower = Follower {
        grain: 0,
        row: 0,
        reset: Stamp(0),
        last: Stamp(0),
        count: 0,
    };
}

#[repr(C)]
#[derive(Clone, Copy)]
pub struct Started {
    pub number: u8,
    pub place: usize,
    pub follower: Follower,
}

#[repr(C)]
#[derive(Clone, Copy)]
pub struct Followed {
    pub number: u8,
    pub place: usize,
    pub yes: bool,
    pub follower: Follower,
}

// What following an event answers where the follower stays in its place.
#[repr(C)]
#[derive(Clone, Copy)]
pub struct Moved {
    pub number: u8,
    pub place: usize,
    pub yes: bool,
}

// The size of a list of words: S symbols, at most m `events`, stamps up to H whole `seconds`.
#[repr(C)]
#[derive(Clone, Copy)]
pub struct Size {
    pub symbols: u32,
    pub events: u32,
    pub seconds: u32,
}

// A word by value, D = 2: its number of events and six places, unused ones zero.
#[repr(C)]
#[derive(Clone, Copy)]
pub struct Listed {
    pub count: u32,
    pub symbols: [u16; MOST_LISTED_EVENTS],
    pub stamps: [u32; MOST_LISTED_EVENTS],
}

// The next word of a list; `last`: there is none, and the word is the one given. It is that on a refusal too.
#[repr(C)]
#[derive(Clone, Copy)]
pub struct Next {
    pub number: u8,
    pub place: usize,
    pub last: bool,
    pub word: Listed,
}

// Does the first table allow only what the second allows? If not, a word of so many `events` stands in the lent room.
#[repr(C)]
#[derive(Clone, Copy)]
pub struct Inclusion {
    pub number: u8,
    pub place: usize,
    pub included: bool,
    pub events: usize,
}

// Up to 16 built records, by value; their cells, rows and pools stand one after another in the three lent tables.
#[repr(C)]
#[derive(Clone, Copy)]
pub struct Batch {
    pub count: u32,
    pub tables: [Built; MOST_TABLES],
}

// How much of the list each table of a batch allows. A line of 32 numbers a table: for 0 to 6 events, and last in all,
// four numbers: the words accepted, out of how many, and that share in lowest terms, numerator and denominator.
// `greatest` is the table with the greatest share in all, from 1.
#[repr(C)]
#[derive(Clone, Copy)]
pub struct Shares {
    pub number: u8,
    pub place: usize,
    pub greatest: u32,
    pub lines: [u32; LINES_WIDTH],
}

// The outcomes of calls as the records that cross them.
impl From<Result<usize, Refused>> for Answer {
    ghost from_gives = { λ outcome given. given ≡ answer_in (λ n. n) outcome };

    fn from(outcome: Result<usize, Refused>) -> Answer {
        match outcome {
            Ok(value) => Answer {
                number: 0,
                place: 0,
                value,
            },
            Err(refused) => Answer {
                number: refused.fault.number(),
                place: refused.place,
                value: 0,
            },
        }
    }
}

impl From<Result<Head, Refused>> for Reading {
    ghost from_gives = { λ outcome given. given ≡ reading_in outcome };

    fn from(outcome: Result<Head, Refused>) -> Reading {
        match outcome {
            Ok(head) => Reading {
                number: 0,
                place: 0,
                head,
            },
            Err(refused) => Reading {
                number: refused.fault.number(),
                place: refused.place,
                head: Head::NONE,
            },
        }
    }
}

impl From<Result<Built, Refused>> for Building {
    ghost from_gives = { λ outcome given. given ≡ building_in outcome };

    fn from(outcome: Result<Built, Refused>) -> Building {
        match outcome {
            Ok(built) => Building {
                number: 0,
                place: 0,
                built,
            },
            Err(refused) => Building {
                number: refused.fault.number(),
                place: refused.place,
                built: Built::NONE,
            },
        }
    }
}

impl From<Result<Follower, Refused>> for Started {
    ghost from_gives = { λ outcome given. given ≡ started_in outcome };

    fn from(outcome: Result<Follower, Refused>) -> Started {
        match outcome {
            Ok(follower) => Started {
                number: 0,
                place: 0,
                follower,
            },
            Err(refused) => Started {
                number: refused.fault.number(),
                place: refused.place,
                follower: Follower::NONE,
            },
        }
    }
}
