// The listing program: a rule file from standard input, its table on standard output.
#![tactic(auto)]

ghost use Rattle.std.specs.Prelude.{◌<◌, ◌≤◌, IfOk, length, take};
ghost use Rattle.std.specs.Io.KnownBytes.{Consumes, IsAtEnd};

use construct::build_table;
use edges::StoredRule;
use model::{EDGE_NEED, Refused};
use numbers::part_of;
use reader::read_rule;
use std::io::Read;
use std::{fmt, io};
use tables::Table;

// The bytes of a file that are read; the longest legal file has 44,432.
const LISTED_FILE: usize = 49152;

// Reads until the buffer is full or the input ends; the answer is how many bytes stand at the start of the buffer.
fn read_full<R: Read>(input: &mut R, buffer: &mut [u8]) -> io::Result<usize>
    ensures in_bounds { IfOk result (λ size. size ≤ length buffer.new) }
    ensures bytes { IfOk result (λ size.
        Consumes (R.remaining input.old) (R.remaining input.new) (take size buffer.new)) }
    ensures end { IfOk result (λ size. size < length buffer.new → IsAtEnd (R.remaining input.new)) }
{
    let mut size = 0;
    // No range: how far a read comes is the input's to say.
    while size < buffer.len() {
        let count = input.read(&mut buffer[size..])?;
        if count == 0 {
            return Ok(size);
        }
        size += count;
    }
    Ok(size)
}

// The numbers of a part of a table, each after a blank.
#[derive(Clone, Copy)]
struct AfterBlanks<'a>(&'a [u32]);

impl fmt::Display for AfterBlanks<'_> {
    fn fmt<W: fmt::Write>(&self, f: &mut fmt::Formatter<W>) -> fmt::Result {
        for number in self.0 {
            write!(f, " {number}")?;
        }
        Ok(())
    }
}

fn print_refusal(rt: &impl Print, refused: Refused) -> io::Result<()> {
    println!(rt; "no {} {}", refused.fault.number(), refused.place)
}

// A row: its number, the verdict that it stores, its codes.
fn print_head(rt: &impl Print, table: Table<'_>, row: u32) -> io::Result<()> {
    let codes = part_of(table.pool, table.row_start(row), table.row_length(row));
    let verdict = table.row_verdict(row);
    println!(rt; "{row} {verdict} {}{}", codes.len(), AfterBlanks(codes))
}

// A line of cells.
fn print_line(rt: &impl Print, line: &[u32]) -> io::Result<()> {
    match line {
        [] => println!(rt),
        [first, rest @ ..] => println!(rt; "{first}{}", AfterBlanks(rest)),
    }
}

// R, P, S and W, then each row with a line of cells for each symbol.
fn print_table(rt: &impl Print, table: Table<'_>) -> io::Result<()> {
    let built = table.built;
    let width = 2 * built.top as usize + 2;
    println!(rt; "{} {} {} {width}", built.rows, built.total, built.symbols)?;
    let mut lines = table.cells.chunks_exact(width);
    for row in 0..built.rows {
        print_head(rt, table, row)?;
        for _ in 0..built.symbols {
            print_line(rt, lines.next().unwrap_or(&[]))?;
        }
    }
    Ok(())
}

// The table of a rule, or why there is none.
fn list_rule(rt: &impl Print, rule: StoredRule<'_>) -> io::Result<()> {
    let mut scratch = [0u32; 16384];
    let mut cells = [0u32; 16384];
    let mut rows = [0u32; 2048];
    let mut pool = [0u32; 8192];
    match build_table(rule, &mut scratch, &mut cells, &mut rows, &mut pool) {
        Ok(built) => {
            let table = Table {
                built,
                cells: &cells,
                rows: &rows,
                pool: &pool,
            };
            print_table(rt, table)
        }
        Err(refused) => print_refusal(rt, refused),
    }
}

fn main(rt: HostRuntime) -> io::Result<()> {
    let mut file = [0u8; LISTED_FILE];
    let size = read_full(&mut rt.reader(), &mut file)?;
    let mut edges = [0u16; EDGE_NEED];
    match read_rule(&file[..size], &mut edges) {
        Ok(head) => {
            let rule = StoredRule {
                head,
                edges: &edges,
            };
            list_rule(&rt, rule)
        }
        Err(refused) => print_refusal(&rt, refused),
    }
}
