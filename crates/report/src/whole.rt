ghost use Rattle.std.specs.Prelude.{◌≡◌, ℕ, ◌+◌, ◌<◌, ◌≤◌, min, true, false, List, [], length, None as Nothing, Ok as Good, Option as Maybe};
ghost use Rattle.text.specs.Writing.{Wrote};
ghost use Rattle.book.specs.Memory.{state_of, rows_of};
ghost use Rattle.kinds.specs.PlaceLaws.{place_meaning};
ghost use Rattle.kinds.specs.TickLaws.{tick_meaning};
ghost use Rattle.report.specs.Coded.{ReadsBack};
ghost use Rattle.report.specs.Entries.{Item, kind_of};
ghost use Rattle.report.specs.Words.{words_of};
ghost use Rattle.report.specs.Reading.{reading_of, ahead};
ghost use Rattle.report.specs.Doing.{Outcome, lent_of};
ghost use Rattle.report.specs.History.{Told, History, Onward, Reported};
ghost use Rattle.report.specs.declared.file.FileFault.{FileFault as Trouble};
ghost use Rattle.report.specs.declared.file.FileKind.{FileKind as Sort};
ghost use Rattle.report.specs.declared.file.FileKind.TheVariants.{Ticks as OfTicks, CyclePlaces as OfPlaces};

use crate::file::FileKind;
use crate::session::{LINE_ROOM, Line, Session};
use crate::writer::RowWriter;
use book::{Book, Link};
use kind::Kind;
use kinds::{PlaceLatency, Places, TickLatency, Ticks};

/// The report has no room for the next line; so many bytes of it are written.
#[derive(Clone, Copy, Debug, PartialEq, Eq)]
pub struct Full(pub usize);

// The next line, on a row that is long enough.
fn line<K: Kind>(
    session: &mut Session<K>,
    totals: &mut [K::Total],
    numbers: &mut [u32],
    steps: &mut [u32],
    row: &mut [u8],
) -> Option<Line>
    requires { 32768 ≤ length row.old }
    ensures { Told K.Kind.meaning (reading_of session.old.reader.at) (state_of K.Kind.meaning session.old.book.now.store) (lent_of totals.old numbers.old steps.old) (lent_of totals.new numbers.new steps.new) row.old row.new result (reading_of session.new.reader.at) (state_of K.Kind.meaning session.new.book.now.store) }
{
    session.next(totals, numbers, steps, row).unwrap_or(None)
}

// Does the calls that are left. Each line is made in the row, and goes into the report if it fits there.
fn finish<K: Kind>(
    session: &mut Session<K>,
    totals: &mut [K::Total],
    numbers: &mut [u32],
    steps: &mut [u32],
    row: &mut [u8],
    report: &mut [u8],
) -> Result<usize, Full>
    requires { 32768 ≤ length row.old }
    ensures { (sort : Sort) (capacity : ℕ) (text : List ℕ) → History K.Kind.meaning sort capacity (rows_of totals.old numbers.old steps.old) text [] Nothing (reading_of session.old.reader.at) (state_of K.Kind.meaning session.old.book.now.store) → Reported K.Kind.meaning sort capacity (rows_of totals.old numbers.old steps.old) text report.old report.new result }
{
    let mut written = RowWriter::new(report);
    while let Some(l) = line(session, totals, numbers, steps, row) {
        if written.room() < l.bytes {
            return Err(Full(written.len()));
        }
        written.text(&row[..l.bytes]);
    }
    Ok(written.len())
}

/// How far a report went: so many bytes of it are in its row, and whether it is over.
// A flag beside the bytes: they are told in both cases, so two variants would be no plainer.
#[derive(Clone, Copy, Debug, PartialEq, Eq)]
pub struct Filled {
    pub bytes: usize,
    pub over: bool,
}

impl<'f, 'b, 'a, K: Kind> Session<'f, 'b, 'a, K> {
    /// Does the next calls of the file and writes their lines one after another, as long as the row has room for a
    /// line of any length. It is called again for the lines that follow.
    pub fn fill(
        &mut self,
        totals: &mut [K::Total],
        numbers: &mut [u32],
        steps: &mut [u32],
        report: &mut [u8],
    ) -> Filled
        ensures lines { (sort : Sort) (capacity : ℕ) (text : List ℕ) (h : List (Item × Outcome K.Kind.meaning.quantities.Q × ℕ)) (f : Maybe Trouble) → History K.Kind.meaning sort capacity (rows_of totals.old numbers.old steps.old) text h f (reading_of self.old.reader.at) (state_of K.Kind.meaning self.old.book.now.store) → (bytes : List ℕ) × Onward K.Kind.meaning sort capacity (rows_of totals.old numbers.old steps.old) text h f (reading_of self.new.reader.at) (state_of K.Kind.meaning self.new.book.now.store) bytes × Wrote report.old 0 bytes report.new result.bytes }
        ensures room { result.bytes ≤ length report.new }
        ensures over { result.over ≡ true → ahead (reading_of self.new.reader.at) ≡ Good Nothing }
        ensures more { result.over ≡ false → length report.old < result.bytes + 32768 }
    {
        // A line is written by `next` itself, so only its length is known here.
        let mut bytes = 0;
        while report.len() - bytes >= LINE_ROOM {
            let Some(l) = line(self, totals, numbers, steps, &mut report[bytes..]) else {
                return Filled { bytes, over: true };
            };
            bytes += l.bytes;
        }
        Filled { bytes, over: false }
    }
}

// Works a whole file on one new book, and writes its report: every call's line in order, or the lines that fit.
fn run<K: Kind>(
    kind: FileKind,
    file: &[u8],
    links: &mut [Link<K::Latency>],
    totals: &mut [K::Total],
    numbers: &mut [u32],
    steps: &mut [u32],
    report: &mut [u8],
) -> Result<usize, Full>
    ensures { Reported K.Kind.meaning kind (min (length links.old) 8192) (rows_of totals.old numbers.old steps.old) file.now report.old report.new result }
{
    let mut book: Book<K> = Book::new(links);
    let mut session = Session::open(kind, file, &mut book);
    let mut row = [0u8; LINE_ROOM];
    finish(&mut session, totals, numbers, steps, &mut row, report)
}

/// Works a whole file on one new book of the kind that its head names: tick books and cycle books have rows of their
/// own, of which only the one kind's are used.
pub fn run_file(
    file: &[u8],
    tick_links: &mut [Link<TickLatency>],
    tick_totals: &mut [i64],
    place_links: &mut [Link<PlaceLatency>],
    place_totals: &mut [u32],
    numbers: &mut [u32],
    steps: &mut [u32],
    report: &mut [u8],
) -> Result<usize, Full>
    ensures ticks { kind_of (words_of file.now) ≡ OfTicks → Reported tick_meaning OfTicks (min (length tick_links.old) 8192) (rows_of tick_totals.old numbers.old steps.old) file.now report.old report.new result }
    ensures places { kind_of (words_of file.now) ≡ OfPlaces → Reported place_meaning OfPlaces (min (length place_links.old) 8192) (rows_of place_totals.old numbers.old steps.old) file.now report.old report.new result }
{
    // The kinds are fixed, so a match, which leaves none out.
    // Each arm passes the rows of its kind to the one generic function.
    match FileKind::of(file) {
        FileKind::Ticks => run::<Ticks>(
            FileKind::Ticks,
            file,
            tick_links,
            tick_totals,
            numbers,
            steps,
            report,
        ),
        FileKind::CyclePlaces => run::<Places>(
            FileKind::CyclePlaces,
            file,
            place_links,
            place_totals,
            numbers,
            steps,
            report,
        ),
    }
}

/// The words of a call are read back as the call.
pub fn format_stands()
    ensures { ReadsBack }
{}
