ghost use Rattle.std.specs.Prelude.{◌≤◌, length};
ghost use Rattle.book.specs.Memory.{state_of};
ghost use Rattle.report.specs.Words.{words_of};
ghost use Rattle.report.specs.Entries.{link, offset, all_offsets, realise, walk, item_of, width};
ghost use Rattle.report.specs.Doing.{Did, Made, Lent, lent_of};

use crate::fault::{CallFault, Good, LatencyFault};
use crate::file::{Entry, MAX_WALK, fill};
use book::{Book, Link};
use kind::Kind;

// The latencies of a LINK; of two bad numbers the measured one is told.
fn latencies<K: Kind>(m: i32, w: i32) -> Result<(K::Latency, K::Latency), LatencyFault>
    ensures { Made K.Kind.meaning m w result }
{
    let measured = K::latency(m).map_err(|_| LatencyFault::Measured)?;
    let wanted = K::latency(w).map_err(|_| LatencyFault::Wanted)?;
    Ok((measured, wanted))
}

// Rows are passed one by one, as the book takes them: each clause is about one row of the caller's.
fn do_link<K: Kind>(
    book: &mut Book<K>,
    asked: Link<i32>,
    totals: &mut [K::Total],
    numbers: &mut [u32],
    steps: &mut [u32],
) -> Result<Good<K::Total>, CallFault>
    ensures { Did K.Kind.meaning (state_of K.Kind.meaning book.old.store) (link asked.from asked.to asked.measured asked.wanted) result (state_of K.Kind.meaning book.new.store) (lent_of totals.old numbers.old steps.old) (lent_of totals.new numbers.new steps.new) }
{
    let (measured, wanted) = latencies::<K>(asked.measured, asked.wanted)?;
    let new = Link {
        from: asked.from,
        to: asked.to,
        measured,
        wanted,
    };
    book.link(new, totals, numbers, steps)?;
    Ok(Good::Done)
}

fn do_walk<K: Kind>(book: &Book<K>, bytes: &[u8]) -> Result<Good<K::Total>, CallFault>
    requires { length (words_of bytes.now) ≤ 1024 }
    ensures { (m : Lent K.Total) → Did K.Kind.meaning (state_of K.Kind.meaning book.now.store) (walk (words_of bytes.now)) result (state_of K.Kind.meaning book.now.store) m m }
{
    // Without a heap: an array, and how many of its words are the call's.
    let mut words = [0u32; MAX_WALK as usize];
    let n = fill(&mut words, bytes);
    let (measured, wanted) = book.walk(&words[..n])?;
    Ok(Good::Totals(measured, wanted))
}

fn do_offset<K: Kind>(
    book: &Book<K>,
    i: u32,
    j: u32,
    totals: &mut [K::Total],
    numbers: &mut [u32],
    steps: &[u32],
) -> Result<Good<K::Total>, CallFault>
    ensures { Did K.Kind.meaning (state_of K.Kind.meaning book.now.store) (offset i j) result (state_of K.Kind.meaning book.now.store) (lent_of totals.old numbers.old steps.now) (lent_of totals.new numbers.new steps.now) }
{
    let t = book.offset(i, j, totals, numbers, steps)?;
    Ok(Good::Total(t))
}

fn do_offsets<K: Kind>(
    book: &Book<K>,
    totals: &mut [K::Total],
    numbers: &mut [u32],
    steps: &[u32],
) -> Result<Good<K::Total>, CallFault>
    ensures { Did K.Kind.meaning (state_of K.Kind.meaning book.now.store) all_offsets result (state_of K.Kind.meaning book.now.store) (lent_of totals.old numbers.old steps.now) (lent_of totals.new numbers.new steps.now) }
{
    book.offsets(totals, numbers, steps)?;
    Ok(Good::Offsets(book.switches() as usize))
}

fn do_realise<K: Kind>(
    book: &Book<K>,
    totals: &mut [K::Total],
    numbers: &mut [u32],
    steps: &mut [u32],
) -> Result<Good<K::Total>, CallFault>
    ensures { Did K.Kind.meaning (state_of K.Kind.meaning book.now.store) realise result (state_of K.Kind.meaning book.now.store) (lent_of totals.old numbers.old steps.old) (lent_of totals.new numbers.new steps.new) }
{
    book.realise(totals, numbers, steps)?;
    Ok(Good::Schedule(book.switches() as usize))
}

// Does a call of a file on the book. The calls are nine for good, so a match, and no table of closures.
pub(crate) fn perform<K: Kind>(
    book: &mut Book<K>,
    e: Entry<'_>,
    totals: &mut [K::Total],
    numbers: &mut [u32],
    steps: &mut [u32],
) -> Result<Good<K::Total>, CallFault>
    requires { width (item_of e) ≤ 1025 }
    ensures { Did K.Kind.meaning (state_of K.Kind.meaning book.old.store) (item_of e.entry) result (state_of K.Kind.meaning book.new.store) (lent_of totals.old numbers.old steps.old) (lent_of totals.new numbers.new steps.new) }
{
    match e {
        Entry::Size(n) => book.size(n)?,
        Entry::Link(asked) => return do_link(book, asked, totals, numbers, steps),
        Entry::Strike(i, j) => book.strike(i, j)?,
        Entry::Offset(i, j) => return do_offset(book, i, j, totals, numbers, steps),
        Entry::Offsets => return do_offsets(book, totals, numbers, steps),
        Entry::Realise => return do_realise(book, totals, numbers, steps),
        Entry::Issue => book.issue()?,
        Entry::Recall => book.recall()?,
        Entry::Walk(bytes) => return do_walk(book, bytes),
    }
    Ok(Good::Done)
}
