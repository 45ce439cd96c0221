#![tactic(auto)]

use anyhow::anyhow;
use book::{Book, Link};
use kind::Kind;
use kinds::{Places, Ticks};
use report::{FileKind, Session};
use std::io::{Read, Write};

// One byte past the limit of a file is enough to tell that it is too long.
const FILE_ROOM: u64 = 65537;

const RECORDS: usize = 1024;

const SWITCHES: usize = 1024;

// The report goes out in pieces of at most so many bytes.
const REPORT_ROOM: usize = 262144;

// A file has fewer calls than this, and each piece of the report tells at least one of them.
const MAX_PIECES: u32 = 65536;

// Reads a file of calls from standard input, works it on a new book and prints its report.
fn main(rt: HostRuntime) -> anyhow::Result<()> {
    let mut file = Vec::new(rt.alloc());
    rt.stdin().take(FILE_ROOM).read_to_end(&mut file)?;
    // The kinds that a head can name are fixed, so a match, which leaves none out.
    match FileKind::of(file.as_slice()) {
        FileKind::Ticks => print_report::<Ticks>(rt, FileKind::Ticks, file.as_slice()),
        FileKind::CyclePlaces => print_report::<Places>(rt, FileKind::CyclePlaces, file.as_slice()),
    }
}

fn print_report<K: Kind>(rt: HostRuntime, kind: FileKind, file: &[u8]) -> anyhow::Result<()> {
    let Ok(zero) = K::latency(0) else {
        return Err(anyhow!("the kind has no zero latency"));
    };
    let mut links = vec![in rt.alloc(); Link::blank(zero); RECORDS]?;
    let mut totals = vec![in rt.alloc(); K::zero(); 2 * SWITCHES]?;
    let mut numbers = vec![in rt.alloc(); 0u32; 4 * SWITCHES]?;
    let mut steps = vec![in rt.alloc(); 0u32; SWITCHES]?;
    let mut report = vec![in rt.alloc(); 0u8; REPORT_ROOM]?;
    let mut output = rt.stdout();
    let mut book: Book<K> = Book::new(links.as_mut_slice());
    let mut session = Session::open(kind, file, &mut book);
    for _ in 0..MAX_PIECES {
        let piece = session.fill(
            totals.as_mut_slice(),
            numbers.as_mut_slice(),
            steps.as_mut_slice(),
            report.as_mut_slice(),
        );
        let bytes = piece.bytes;
        output.write_all(&report[0..bytes])?;
        if piece.over {
            return Ok(());
        }
    }
    Ok(())
}
