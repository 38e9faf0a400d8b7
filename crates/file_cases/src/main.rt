// The worked rule file and a file for each refusal from 1 to 8, read: number and place of each. Then the same for files
// with a ceiling of 31, with two, and with one after an edge. Then the worked file, one that is pinned from both sides,
// and one with a ceiling that would make N too large, written again: the length, and 1 if the bytes are those of the
// file less the ceiling. Then edges with groups, read, refused by 2, 3, 4, 6, 7 and 20, and written again.
#![tactic(auto)]

use edges::StoredRule;
use model::{EDGE_NEED, Head, Refused};
use reader::read_rule;
use std::{fmt, io};
use writer::write_rule;

// One number less than the least edge table.
const SHORT_TABLE: usize = EDGE_NEED - 1;

// The longest file that is written.
const LONGEST_FILE: usize = 44426;

// A file with 257 edges of 8 bytes.
const LONG_FILE: usize = 3094;

// Number and place of a refusal, both 0 where there is none. Each program has its own: programs share no crate.
#[derive(Clone, Copy)]
struct Shown(Option<Refused>);

impl fmt::Display for Shown {
    fn fmt<W: fmt::Write>(&self, f: &mut fmt::Formatter<W>) -> fmt::Result {
        match self.0 {
            Some(refused) => write!(f, "{} {}", refused.fault.number(), refused.place),
            None => write!(f, "0 0"),
        }
    }
}

// What reading a file answers, with such an edge table.
fn print_read(rt: &impl Print, file: &[u8], edges: &mut [u16]) -> io::Result<()> {
    println!(rt; "{}", Shown(read_rule(file, edges).err()))
}

fn print_reading(rt: &impl Print, file: &[u8]) -> io::Result<()> {
    print_read(rt, file, &mut [7u16; EDGE_NEED])
}

fn print_readings(rt: &impl Print, files: &[&[u8]]) -> io::Result<()> {
    for file in files {
        print_reading(rt, file)?;
    }
    Ok(())
}

// The sizes 1, 1 and 1, then edges of 8 bytes, of kind 5 and the last of a kind of its own: 257 of them.
fn print_257_edges(rt: &impl Print, last: u8) -> io::Result<()> {
    let mut file = [0u8; LONG_FILE];
    file[..10].copy_from_slice(b"\x06\0\x01\0\x01\0\x01\0\x01\0");
    for edge in file[10..].chunks_exact_mut(12) {
        edge[0] = 8;
        edge[2] = 5;
    }
    file[3084] = last;
    print_reading(rt, &file)
}

// What is written of a file that was read: its length, and whether the bytes are those that must be.
fn print_writing(rt: &impl Print, file: &[u8], again: &[u8]) -> io::Result<()> {
    let mut edges = [7u16; EDGE_NEED];
    let head = read_rule(file, &mut edges).unwrap_or(Head::NONE);
    let rule = StoredRule {
        head,
        edges: &edges,
    };
    let mut out = [7u8; LONGEST_FILE];
    let size = write_rule(rule, &mut out).unwrap_or(0);
    println!(rt; "{size} {}", (out.get(..size) == Some(again)) as u8)
}

// What reading the first bytes of a file answers.
fn print_cut(rt: &impl Print, file: &[u8], size: usize) -> io::Result<()> {
    print_reading(rt, file.get(..size).unwrap_or(file))
}

// An edge with groups, of so many bytes, all zero.
fn print_body(rt: &impl Print, size: u8) -> io::Result<()> {
    let mut file = [0u8; 184];
    file[..10].copy_from_slice(b"\x06\0\x01\0\x01\0\x01\0\x01\0");
    file[10] = size;
    file[12] = 6;
    print_cut(rt, &file, 14 + usize::from(size))
}

fn print_plain(rt: &impl Print) -> io::Result<()> {
    let worked = b"\x06\0\x01\0\x02\0\x02\0\x01\0\x02\0\x02\0\0\0\x02\0\x03\0\0\0\
        \x0e\0\x05\0\0\0\x01\0\0\0\x01\0\0\0\x02\0\x01\0\x0e\0\x05\0\x01\0\0\0\x01\0\0\0\0\0\x03\0\x01\0";
    print_reading(rt, worked)?;
    print_cut(rt, worked, 57)?;
    print_reading(rt, b"\x06\0\x01\0\x02\0\x02\0\x01\0\x02\0\x09\0\0\0")?;
    print_cut(rt, worked, 0)?;
    print_257_edges(rt, 5)?;
    print_readings(
        rt,
        &[
            b"\x06\0\x01\0\x21\0\x02\0\x01\0",
            b"\x06\0\x01\0\x02\0\x02\0\x01\0\x0e\0\x05\0\0\0\x01\0\0\0\0\0\0\0\x02\0\x1f\0",
            b"\x06\0\x01\0\x02\0\x02\0\x01\0\x14\0\x05\0\0\0\x01\0\0\0\x01\0\0\0\x03\0\x03\0\0\0\x01\0\x04\0",
            b"\x06\0\x01\0\x11\0\x01\0\x03\0\x0e\0\x05\0\0\0\0\0\0\0\0\0\0\0\x01\0\x0e\0",
            b"\x06\0\x01\0\x11\0\x01\0\x03\0\x02\0\x04\0\x1f\0",
            b"\x06\0\x01\0\x11\0\x01\0\x03\0\x02\0\x04\0\x1e\0\x02\0\x04\0\x1e\0",
            b"\x06\0\x01\0\x11\0\x01\0\x03\0\x08\0\x05\0\0\0\x01\0\0\0\0\0\x02\0\x04\0\x1e\0",
        ],
    )?;
    print_writing(rt, worked, worked)?;
    let pinned =
        b"\x06\0\x01\0\x02\0\x02\0\x01\0\x14\0\x05\0\0\0\x01\0\0\0\x01\0\0\0\x03\0\x03\0\0\0\x01\0\x03\0";
    print_writing(rt, pinned, pinned)?;
    print_writing(
        rt,
        b"\x06\0\x01\0\x11\0\x01\0\x03\0\x02\0\x04\0\x1e\0\x08\0\x05\0\0\0\x01\0\0\0\0\0",
        b"\x06\0\x01\0\x11\0\x01\0\x03\0\x08\0\x05\0\0\0\x01\0\0\0\0\0",
    )
}

// Bodies of 6 to 170 bytes: 2 where the length is none of kind 6. A text of zeros has no mark that there is.
fn print_bodies(rt: &impl Print) -> io::Result<()> {
    for size in [6u8, 8, 9, 168, 170] {
        print_body(rt, size)?;
    }
    Ok(())
}

// Texts that break the group rules: an unknown mark, an atom cut short, a close with nothing open, a group left open,
// an all-of in an all-of, an any-of in an any-of.
fn print_broken(rt: &impl Print) -> io::Result<()> {
    print_readings(
        rt,
        &[
            b"\x06\0\x01\0\x02\0\x02\0\x01\0\x0a\0\x06\0\0\0\x01\0\0\0\0\0\x05\0",
            b"\x06\0\x01\0\x02\0\x02\0\x01\0\x0e\0\x06\0\0\0\x01\0\0\0\0\0\x03\0\0\0\x03\0",
            b"\x06\0\x01\0\x02\0\x02\0\x01\0\x0a\0\x06\0\0\0\x01\0\0\0\0\0\x04\0",
            b"\x06\0\x01\0\x02\0\x02\0\x01\0\x0a\0\x06\0\0\0\x01\0\0\0\0\0\x02\0",
            b"\x06\0\x01\0\x02\0\x02\0\x01\0\x0c\0\x06\0\0\0\x01\0\0\0\0\0\x01\0\x04\0",
            b"\x06\0\x01\0\x02\0\x02\0\x01\0\x10\0\x06\0\0\0\x01\0\0\0\0\0\x02\0\x02\0\x04\0\x04\0",
        ],
    )
}

// A fifth level, a ninth group, a seventeenth atom.
fn print_too_many(rt: &impl Print) -> io::Result<()> {
    print_readings(
        rt,
        &[
            b"\x06\0\x01\0\x02\0\x02\0\x01\0\
        \x18\0\x06\0\0\0\x01\0\0\0\0\0\x02\0\x01\0\x02\0\x01\0\x04\0\x04\0\x04\0\x04\0",
            b"\x06\0\x01\0\x02\0\x02\0\x01\0\
        \x2c\0\x06\0\0\0\x01\0\0\0\0\0\x02\0\x04\0\x02\0\x04\0\x02\0\x04\0\x02\0\x04\0\x02\0\x04\0\x02\0\x04\0\
        \x02\0\x04\0\x02\0\x04\0\x02\0\x04\0",
            b"\x06\0\x01\0\x02\0\x02\0\x01\0\
        \x90\0\x06\0\0\0\x01\0\0\0\0\0\x03\0\0\0\x03\0\x01\0\x03\0\0\0\x03\0\x01\0\x03\0\0\0\x03\0\x01\0\x03\0\
        \0\0\x03\0\x01\0\x03\0\0\0\x03\0\x01\0\x03\0\0\0\x03\0\x01\0\x03\0\0\0\x03\0\x01\0\x03\0\0\0\x03\0\x01\0\
        \x03\0\0\0\x03\0\x01\0\x03\0\0\0\x03\0\x01\0\x03\0\0\0\x03\0\x01\0\x03\0\0\0\x03\0\x01\0\x03\0\0\0\x03\0\
        \x01\0\x03\0\0\0\x03\0\x01\0\x03\0\0\0\x03\0\x01\0\x03\0\0\0\x03\0\x01\0\x03\0\0\0\x03\0\x01\0",
        ],
    )
}

// A clock, a relation and a constant out of range.
fn print_ranges(rt: &impl Print) -> io::Result<()> {
    print_readings(
        rt,
        &[
            b"\x06\0\x01\0\x02\0\x02\0\x01\0\x10\0\x06\0\0\0\x01\0\0\0\0\0\x03\0\x01\0\x03\0\x01\0",
            b"\x06\0\x01\0\x02\0\x02\0\x01\0\x10\0\x06\0\0\0\x01\0\0\0\0\0\x03\0\0\0\x06\0\x01\0",
            b"\x06\0\x01\0\x02\0\x02\0\x01\0\x10\0\x06\0\0\0\x01\0\0\0\0\0\x03\0\0\0\x03\0\x1f\0",
        ],
    )
}

// Pins: on the outermost level, in a group, with the partner in a group; in a group, of a text that breaks the rules.
fn print_pins(rt: &impl Print) -> io::Result<()> {
    print_readings(
        rt,
        &[
            b"\x06\0\x01\0\x02\0\x02\0\x01\0\x10\0\x06\0\0\0\x01\0\0\0\x01\0\x03\0\0\0\x02\0\x01\0",
            b"\x06\0\x01\0\x02\0\x02\0\x01\0\x14\0\x06\0\0\0\x01\0\0\0\x01\0\x02\0\x03\0\0\0\x02\0\x01\0\x04\0",
            b"\x06\0\x01\0\x02\0\x02\0\x01\0\
        \x1c\0\x06\0\0\0\x01\0\0\0\x01\0\x03\0\0\0\x03\0\x01\0\x02\0\x03\0\0\0\x01\0\x01\0\x04\0",
            b"\x06\0\x01\0\x02\0\x02\0\x01\0\x16\0\x06\0\0\0\x01\0\0\0\x01\0\x02\0\x03\0\0\0\x02\0\x01\0\x04\0\x05\0",
        ],
    )
}

// Not equal in a plain edge; a plain edge behind one with groups; 256 plain edges and one with groups; a table that is
// too short for one.
fn print_kinds(rt: &impl Print) -> io::Result<()> {
    print_readings(
        rt,
        &[
            b"\x06\0\x01\0\x02\0\x02\0\x01\0\x0e\0\x05\0\0\0\x01\0\0\0\0\0\0\0\x05\0\x01\0",
            b"\x06\0\x01\0\x02\0\x02\0\x01\0\x08\0\x06\0\0\0\x01\0\0\0\0\0\x08\0\x05\0\0\0\x01\0\0\0\0\0",
        ],
    )?;
    print_257_edges(rt, 6)?;
    print_read(
        rt,
        b"\x06\0\x01\0\x02\0\x02\0\x01\0\x08\0\x06\0\0\0\x01\0\0\0\0\0",
        &mut [7u16; SHORT_TABLE],
    )
}

// A plain edge, one with no text and one with four levels; the longest text, written again.
fn print_grouped(rt: &impl Print) -> io::Result<()> {
    let grouped = b"\x06\0\x01\0\x02\0\x02\0\x01\0\x02\0\x02\0\0\0\x02\0\x03\0\x01\0\
        \x0e\0\x05\0\0\0\x01\0\0\0\0\0\0\0\x05\0\x01\0\x08\0\x06\0\x01\0\0\0\x01\0\0\0\
        \x38\0\x06\0\0\0\x01\0\0\0\x01\0\x03\0\0\0\x02\0\x02\0\x02\0\x03\0\0\0\0\0\x01\0\x01\0\x03\0\0\0\x04\0\
        \x03\0\x02\0\x03\0\0\0\x05\0\x04\0\x04\0\x04\0\x04\0\x02\0\x04\0";
    print_writing(rt, grouped, grouped)?;
    let longest = b"\x06\0\x01\0\x02\0\x02\0\x01\0\
        \xa8\0\x06\0\0\0\x01\0\0\0\0\0\x03\0\0\0\x03\0\x01\0\x03\0\0\0\x03\0\x01\0\x03\0\0\0\x03\0\x01\0\x03\0\
        \0\0\x03\0\x01\0\x03\0\0\0\x03\0\x01\0\x03\0\0\0\x03\0\x01\0\x03\0\0\0\x03\0\x01\0\x03\0\0\0\x03\0\x01\0\
        \x03\0\0\0\x03\0\x01\0\x03\0\0\0\x03\0\x01\0\x03\0\0\0\x03\0\x01\0\x03\0\0\0\x03\0\x01\0\x03\0\0\0\x03\0\
        \x01\0\x03\0\0\0\x03\0\x01\0\x03\0\0\0\x03\0\x01\0\x03\0\0\0\x03\0\x01\0\x02\0\x04\0\x02\0\x04\0\x02\0\
        \x04\0\x02\0\x04\0\x02\0\x04\0\x02\0\x04\0\x02\0\x04\0\x02\0\x04\0";
    print_writing(rt, longest, longest)
}

fn main(rt: HostRuntime) -> io::Result<()> {
    print_plain(&rt)?;
    print_bodies(&rt)?;
    print_broken(&rt)?;
    print_too_many(&rt)?;
    print_ranges(&rt)?;
    print_pins(&rt)?;
    print_kinds(&rt)?;
    print_grouped(&rt)
}
