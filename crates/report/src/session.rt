ghost use Rattle.std.specs.Prelude.{◌≡◌, ◌≤◌, length, Some as There, Ok as Good, Err as Bad};
ghost use Rattle.book.specs.Memory.{state_of};
ghost use Rattle.report.specs.Entries.{item_of, found_of};
ghost use Rattle.report.specs.Reading.{reading_of, unread, ahead, first_word};
ghost use Rattle.report.specs.Doing.{Lent, lent_of};
ghost use Rattle.report.specs.Faults.{reply_fault};
ghost use Rattle.report.specs.History.{Step, Next};

use crate::doing::perform;
use crate::fault::{CallFault, Fault, Good as Reply, Placed};
use crate::file::{Entry, FileFault, FileKind};
use crate::line::{show, show_fault};
use crate::reader::Reader;
use book::Book;
use kind::Kind;

/// A line row has to have so many bytes.
pub const LINE_ROOM: usize = 32768;

/// A line row of fewer than 32,768 bytes: refusal 10.
#[derive(Clone, Copy, Debug, PartialEq, Eq)]
pub struct ShortLine;

/// A line of the report: how many bytes it has, and the fault that it tells, if it tells one.
#[derive(Clone, Copy, Debug, PartialEq, Eq)]
pub struct Line {
    pub bytes: usize,
    pub fault: Option<Placed>,
}

// The fault of a reply to the call that begins with word `first`.
fn fault_in<T: Copy>(first: u32, reply: Result<Reply<T>, CallFault>) -> Option<Placed>
    requires { first ≤ 65536 }
    ensures { result ≡ reply_fault first reply }
{
    let fault = reply.err()?;
    Some(Placed {
        fault: Fault::Call(fault),
        place: fault.place(first),
    })
}

/// A file at work on one book.
#[derive(Drop)]
pub struct Session<'f, 'b, 'a, K: Kind> {
    reader: Reader<'f>,
    book: &'b mut Book<'a, K>,
}

impl<'f, 'b, 'a, K: Kind> Session<'f, 'b, 'a, K> {
    /// Begins a file, whose head has to name the kind.
    pub fn open(kind: FileKind, file: &'f [u8], book: &'b mut Book<'a, K>) -> Session<'f, 'b, 'a, K>
        ensures reading { reading_of result.reader.at ≡ unread kind file.now }
        ensures book { result.book.now ≡ book.old }
    {
        Session {
            reader: Reader::new(kind, file),
            book,
        }
    }

    // Forwarded here, since the borrow checker does not cover a call on the field where these are used.
    fn peek(&self) -> Result<Option<Entry<'f>>, FileFault>
        ensures { found_of result ≡ ahead (reading_of self.now.reader.at) }
    {
        self.reader.peek()
    }

    // Forwarded here, since the borrow checker does not cover a call on the field where these are used.
    fn first_word(&self) -> u32
        ensures value { result ≡ first_word (reading_of self.now.reader.at) }
        ensures small { result ≤ 65536 }
    {
        self.reader.first_word()
    }

    // Does the call that is next, and writes its line.
    // The room is a clause and no type: a struct of the row would have to say that it holds the caller's row still.
    fn act(
        &mut self,
        e: Entry<'_>,
        totals: &mut [K::Total],
        numbers: &mut [u32],
        steps: &mut [u32],
        row: &mut [u8],
    ) -> Line
        requires next { ahead (reading_of self.old.reader.at) ≡ Good (There (item_of e)) }
        requires room { 32768 ≤ length row.old }
        ensures { Step K.Kind.meaning (reading_of self.old.reader.at) (state_of K.Kind.meaning self.old.book.now.store) (lent_of totals.old numbers.old steps.old) (lent_of totals.new numbers.new steps.new) row.old row.new result (reading_of self.new.reader.at) (state_of K.Kind.meaning self.new.book.now.store) }
    {
        let first = self.first_word();
        self.reader.pass(e);
        let reply = perform(self.book, e, totals, numbers, steps);
        let bytes = show::<K>(row, e, reply, totals, steps);
        Line {
            bytes,
            fault: fault_in(first, reply),
        }
    }

    // Writes the line of the file's fault, which ends the report.
    fn fail(&mut self, f: FileFault, row: &mut [u8]) -> Result<Option<Line>, ShortLine>
        requires { ahead (reading_of self.old.reader.at) ≡ Bad f }
        ensures { (m : Lent K.Total) → Next K.Kind.meaning (reading_of self.old.reader.at) (state_of K.Kind.meaning self.old.book.now.store) m m row.old row.new result (reading_of self.new.reader.at) (state_of K.Kind.meaning self.new.book.now.store) }
    {
        if row.len() < LINE_ROOM {
            return Err(ShortLine);
        }
        self.reader.shut();
        let bytes = show_fault(row, f);
        Ok(Some(Line {
            bytes,
            fault: Some(Placed {
                fault: Fault::File(f),
                place: f.place(),
            }),
        }))
    }

    /// Does the next call of the file, and writes its line to the start of the row; None where no call is left.
    pub fn next(
        &mut self,
        totals: &mut [K::Total],
        numbers: &mut [u32],
        steps: &mut [u32],
        row: &mut [u8],
    ) -> Result<Option<Line>, ShortLine>
        ensures { Next K.Kind.meaning (reading_of self.old.reader.at) (state_of K.Kind.meaning self.old.book.now.store) (lent_of totals.old numbers.old steps.old) (lent_of totals.new numbers.new steps.new) row.old row.new result (reading_of self.new.reader.at) (state_of K.Kind.meaning self.new.book.now.store) }
    {
        let e = match self.peek() {
            Ok(Some(e)) => e,
            Ok(None) => return Ok(None),
            Err(f) => return self.fail(f, row),
        };
        if row.len() < LINE_ROOM {
            return Err(ShortLine);
        }
        Ok(Some(self.act(e, totals, numbers, steps, row)))
    }
}
