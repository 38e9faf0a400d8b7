// P1 to P8 through all four runners: exact, by branch, table, follower. Then a case for each of 26, also at place 0,
// and 30 to 34: number and place. Then words over a rule with groups, through all four: the verdicts, and for one event
// whether the branch runner says that the word was held back, and by which member.
#![tactic(auto)]

use branch::{Outcome, run_branches};
use construct::build_table;
use edges::StoredRule;
use exact::run_exact;
use follower::{follow_event, start_follower};
use model::{Built, EDGE_NEED, Follower, Head, Refused, Stamp};
use reader::read_rule;
use std::{fmt, io};
use tables::Table;
use walk::{run_table, verdict};

// A word: D, and the symbol and the stamp of each event.
#[derive(Clone, Copy)]
struct Word<'a> {
    grain: u32,
    symbols: &'a [u16],
    stamps: &'a [u32],
}

// A rule and its table.
#[derive(Clone, Copy)]
struct Runners<'a> {
    rule: StoredRule<'a>,
    table: Table<'a>,
}

// Number and place of a refusal, both 0 where there is none. Each program has its own: programs share no crate.
#[derive(Clone, Copy)]
struct Shown(Option<Refused>);

impl fmt::Display for Shown {
    fn fmt<W: fmt::Write>(&self, f: &mut fmt::Formatter<W>) -> fmt::Result {
        match self.0 {
            Some(refused) => write!(f, "{} {}", refused.fault.number(), refused.place),
            None => write!(f, "0 0"),
        }
    }
}

// The follower's verdict after all events, from the start.
fn follow_all(table: Table<'_>, word: Word<'_>) -> Result<bool, Refused> {
    let mut follower = start_follower(word.grain)?;
    for (symbol, stamp) in word.symbols.iter().zip(word.stamps) {
        let (next, _) = follow_event(follower, table, *symbol, Stamp(*stamp))?;
        follower = next;
    }
    Ok(verdict(table, follower.row))
}

fn accepts(outcome: Outcome) -> bool {
    match outcome {
        Outcome::Accepts(_) => true,
        Outcome::Blank { .. } => false,
    }
}

// A word's verdict by each runner.
fn print_word(rt: &impl Print, runners: Runners<'_>, word: Word<'_>) -> io::Result<()> {
    let Runners { rule, table } = runners;
    let Word {
        grain,
        symbols,
        stamps,
    } = word;
    let verdicts = [
        run_exact(rule, grain, symbols, stamps, &mut [7u32; 64]),
        run_branches(rule, grain, symbols, stamps).map(accepts),
        run_table(table, grain, symbols, stamps),
        follow_all(table, word),
    ];
    let [exact, branch, table, followed] = verdicts.map(|verdict| verdict.unwrap_or(false) as u8);
    println!(rt; "{exact}{branch}{table}{followed}")
}

// Low and good return in turn at 1, 2, 2 and 3 s: no event, the first, the first two, ..
fn print_starts(rt: &impl Print, runners: Runners<'_>) -> io::Result<()> {
    let symbols = [0u16, 1, 0, 1];
    let stamps = [2u32, 4, 4, 6];
    for n in 0..5 {
        let word = Word {
            grain: 2,
            symbols: &symbols[..n],
            stamps: &stamps[..n],
        };
        print_word(rt, runners, word)?;
    }
    Ok(())
}

// At 1 and 1.5 s; at 0.5 s; at 1 and 2 1/3 s, in thirds of a second.
fn print_times(rt: &impl Print, runners: Runners<'_>) -> io::Result<()> {
    let half = Word {
        grain: 2,
        symbols: &[0u16, 1],
        stamps: &[2u32, 3],
    };
    let once = Word {
        grain: 2,
        symbols: &[0u16],
        stamps: &[1u32],
    };
    let thirds = Word {
        grain: 3,
        symbols: &[0u16, 1],
        stamps: &[3u32, 7],
    };
    for word in [half, once, thirds] {
        print_word(rt, runners, word)?;
    }
    Ok(())
}

// What the exact runner answers in a room, over one file and one event.
fn print_exact(rt: &impl Print, file: &[u8], scratch: &mut [u32]) -> io::Result<()> {
    let mut edges = [7u16; EDGE_NEED];
    let head = read_rule(file, &mut edges).unwrap_or(Head::NONE);
    let rule = StoredRule {
        head,
        edges: &edges,
    };
    let outcome = run_exact(rule, 2, &[0u16], &[2u32], scratch);
    println!(rt; "{}", Shown(outcome.err()))
}

// What the table runner answers to a word.
fn print_table(rt: &impl Print, table: Table<'_>, word: Word<'_>) -> io::Result<()> {
    let outcome = run_table(table, word.grain, word.symbols, word.stamps);
    println!(rt; "{}", Shown(outcome.err()))
}

// A follower that is in no row of the table.
fn print_stray(rt: &impl Print, table: Table<'_>) -> io::Result<()> {
    let stray = Follower {
        grain: 2,
        row: 3,
        reset: Stamp(0),
        last: Stamp(0),
        count: 0,
    };
    let outcome = follow_event(stray, table, 0, Stamp(2));
    println!(rt; "{}", Shown(outcome.err()))
}

// D of 0; a stamp too few; an unknown symbol; a stamp that falls.
fn print_table_refusals(rt: &impl Print, table: Table<'_>) -> io::Result<()> {
    let no_grain = Word {
        grain: 0,
        symbols: &[0u16],
        stamps: &[2u32],
    };
    let short = Word {
        grain: 2,
        symbols: &[0u16, 1],
        stamps: &[2u32],
    };
    let unknown = Word {
        grain: 2,
        symbols: &[0u16, 2],
        stamps: &[2u32, 1],
    };
    let falling = Word {
        grain: 2,
        symbols: &[0u16, 1],
        stamps: &[2u32, 1],
    };
    for word in [no_grain, short, unknown, falling] {
        print_table(rt, table, word)?;
    }
    Ok(())
}

fn print_refusals(rt: &impl Print, file: &[u8], table: Table<'_>) -> io::Result<()> {
    let either =
        b"\x06\0\x01\0\x02\0\x01\0\x01\0\x02\0\x02\0\0\0\x08\0\x05\0\0\0\0\0\0\0\0\0\x08\0\x05\0\0\0\x01\0\0\0\0\0";
    print_exact(rt, file, &mut [7u32; 3])?;
    print_exact(rt, either, &mut [7u32; 4])?;
    print_table_refusals(rt, table)?;
    print_stray(rt, table)
}

// Whether a word is held back, and the member of the outermost level that does not hold.
fn print_held(rt: &impl Print, rule: StoredRule<'_>, word: Word<'_>) -> io::Result<()> {
    match run_branches(rule, word.grain, word.symbols, word.stamps) {
        Ok(
            Outcome::Blank {
                held: Some(position),
            },
        ) => println!(rt; "1 {position}"),
        _ => println!(rt; "0 0"),
    }
}

// Above 0, and below 2 or both at least 3 and not 4: one event on symbol 0 at 0, 1, 2, 2.5, 3, 4 and 4.5 s.
fn print_either(rt: &impl Print, runners: Runners<'_>) -> io::Result<()> {
    for stamp in [0u32, 2, 4, 5, 6, 8, 9] {
        let word = Word {
            grain: 2,
            symbols: &[0u16],
            stamps: &[stamp],
        };
        print_word(rt, runners, word)?;
        print_held(rt, runners.rule, word)?;
    }
    Ok(())
}

// Forth at 1 s, reset at 4 s, back at 5 s, and forth again, at 7 s or too early at 6 s. Back at 4 s: stuck.
fn print_again(rt: &impl Print, runners: Runners<'_>) -> io::Result<()> {
    let again = Word {
        grain: 2,
        symbols: &[0u16, 0, 1, 0],
        stamps: &[2u32, 8, 10, 14],
    };
    let early = Word {
        stamps: &[2u32, 8, 10, 12],
        ..again
    };
    let stuck = Word {
        grain: 2,
        symbols: &[0u16, 1, 0],
        stamps: &[2u32, 8, 8],
    };
    for word in [again, early, stuck] {
        print_word(rt, runners, word)?;
    }
    Ok(())
}

// What a file's rule and its table show, in room that they fill.
fn with_rule<F>(file: &[u8], scratch: &mut [u32], cells: &mut [u32], show: F) -> io::Result<()>
where
    F: FnOnce(Runners<'_>) -> io::Result<()>,
    requires { (runners : _) → F.pre show runners }
{
    let mut edges = [7u16; EDGE_NEED];
    let head = read_rule(file, &mut edges).unwrap_or(Head::NONE);
    let rule = StoredRule {
        head,
        edges: &edges,
    };
    let mut rows = [7u32; 9];
    let mut pool = [7u32; 2];
    let built = build_table(rule, scratch, cells, &mut rows, &mut pool).unwrap_or(Built::NONE);
    let table = Table {
        built,
        cells,
        rows: &rows,
        pool: &pool,
    };
    show(Runners { rule, table })
}

// Edges forth and back; what one runner alone is asked.
fn print_plain(rt: &impl Print) -> io::Result<()> {
    let worked = b"\x06\0\x01\0\x02\0\x02\0\x01\0\x02\0\x02\0\0\0\x02\0\x03\0\0\0\
        \x0e\0\x05\0\0\0\x01\0\0\0\x01\0\0\0\x02\0\x01\0\x0e\0\x05\0\x01\0\0\0\x01\0\0\0\0\0\x03\0\x01\0";
    with_rule(worked, &mut [7u32; 6], &mut [7u32; 24], |runners| {
        print_starts(rt, runners)?;
        print_times(rt, runners)?;
        print_refusals(rt, worked, runners.table)
    })
}

// A plain edge back, not equal 4; forth with groups; and one that resets at 4, pinned outside its group.
fn print_groups(rt: &impl Print) -> io::Result<()> {
    let file = b"\x06\0\x01\0\x02\0\x02\0\x01\0\x02\0\x02\0\0\0\x02\0\x03\0\x01\0\
        \x0e\0\x05\0\x01\0\0\0\x01\0\0\0\0\0\x05\0\x04\0\
        \x30\0\x06\0\0\0\x01\0\0\0\0\0\x03\0\0\0\x04\0\0\0\x02\0\x03\0\0\0\0\0\x02\0\x01\0\x03\0\0\0\x03\0\x03\0\
        \x03\0\0\0\x05\0\x04\0\x04\0\x04\0\
        \x1c\0\x06\0\x01\0\x01\0\0\0\x01\0\x03\0\0\0\x02\0\x04\0\x02\0\x03\0\0\0\x05\0\x03\0\x04\0";
    with_rule(file, &mut [7u32; 12], &mut [7u32; 60], |runners| {
        print_either(rt, runners)?;
        print_again(rt, runners)
    })
}

fn main(rt: HostRuntime) -> io::Result<()> {
    print_plain(&rt)?;
    print_groups(&rt)
}
