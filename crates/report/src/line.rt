ghost use Rattle.std.specs.Prelude.{◌≡◌, ℕ, ◌+◌, ◌*◌, ◌≤◌, List, [], ◌++◌, length, take, Ok as Fine, codes, decimal};
ghost use Rattle.text.specs.Writing.{Wrote};
ghost use Rattle.calls.specs.Refusals.{number_of};
ghost use Rattle.report.specs.Appending.{HasRoom, SameRow, Appended};
ghost use Rattle.report.specs.Entries.{item_of};
ghost use Rattle.report.specs.Doing.{outcome_of, Backed, Room, GoodRoom, lent_of};
ghost use Rattle.report.specs.Lines.{hexes, pair, asked, listed, Holds, told, line_of, fault_line};

use crate::fault::{CallFault, Good};
use crate::file::{Entry, FileFault};
use crate::writer::RowWriter;
use book::Refused;
use kind::Kind;

impl RowWriter<'_> {
    // Two switches after a call's name.
    fn pair(&mut self, i: u32, j: u32)
        requires { HasRoom self.old 57 }
        ensures bound { self.new.len ≤ self.old.len + 57 }
        ensures wrote { Appended self.old (pair i j) self.new }
    {
        self.number(i);
        self.text(b" ");
        self.number(j);
    }

    // A call's name, and the number or the switches that it names.
    fn asked(&mut self, e: Entry<'_>)
        requires { HasRoom self.old 64 }
        ensures bound { self.new.len ≤ self.old.len + 64 }
        ensures wrote { Appended self.old (asked (item_of e.entry)) self.new }
    {
        // The calls are fixed, so a match, which leaves none out.
        match e {
            Entry::Size(n) => {
                self.text(b"SIZE ");
                self.number(n);
            }
            Entry::Link(l) => {
                self.text(b"LINK ");
                self.pair(l.from, l.to);
            }
            Entry::Strike(i, j) => {
                self.text(b"STRIKE ");
                self.pair(i, j);
            }
            Entry::Offset(i, j) => {
                self.text(b"OFFSET ");
                self.pair(i, j);
            }
            Entry::Offsets => self.text(b"OFFSETS"),
            Entry::Realise => self.text(b"REALISE"),
            Entry::Issue => self.text(b"ISSUE"),
            Entry::Recall => self.text(b"RECALL"),
            Entry::Walk(_) => self.text(b"WALK"),
        }
    }

    // Step words, a space before each.
    fn steps(&mut self, steps: &[u32])
        requires { HasRoom self.old (9 * length steps.now) }
        ensures bound { self.new.len ≡ self.old.len + 9 * length steps.now }
        ensures wrote { Appended self.old (hexes steps.now) self.new }
    {
        for w in steps {
            self.word(*w);
        }
    }

    // A refusal's number, and the steps that show why.
    fn refused(&mut self, x: Refused, steps: &[u32])
        requires room { HasRoom self.old 9300 }
        requires shown { (x.shown ≤ 1024) × (x.shown ≤ length steps.now) }
        ensures bound { self.new.len ≤ self.old.len + 9300 }
        ensures wrote { Appended self.old (codes " NO " ++ (decimal (number_of x.refusal) ++ hexes (take x.shown steps.now))) self.new }
    {
        self.text(b" NO ");
        self.number(x.refusal.number());
        self.steps(&steps[..x.shown]);
    }

    // A total as its kind prints it; within reach that is the text of the quantity that it means.
    #[inline(always)]
    fn total<K: Kind>(&mut self, t: &K::Total)
        requires { HasRoom self.old 28 }
        ensures same { SameRow self.old self.new }
        ensures bound { self.new.len ≤ self.old.len + 28 }
        ensures wrote { K.Kind.meaning.within 16777216 t.now → Appended self.old (K.Kind.meaning.text (K.Kind.meaning.total t.now)) self.new }
    {
        self.text(K::text(t).as_bytes());
    }

    // A row of totals, one a switch: the bytes are the same for all offsets that it stands for.
    fn offsets<K: Kind>(&mut self, totals: &[K::Total])
        requires { HasRoom self.old (29 * length totals.now) }
        ensures same { SameRow self.old self.new }
        ensures bound { self.new.len ≤ self.old.len + 29 * length totals.now }
        ensures wrote { (c : ℕ → K.Kind.meaning.quantities.Q) → Holds K.Kind.meaning c totals.now → Appended self.old (listed K.Kind.meaning c (length totals.now)) self.new }
    {
        for t in totals {
            self.text(b" ");
            self.total::<K>(t);
        }
    }

    // OK, and what the call answers.
    fn good<K: Kind>(&mut self, good: Good<K::Total>, totals: &[K::Total])
        requires room { HasRoom self.old 30000 }
        requires few { GoodRoom good totals.now }
        ensures same { SameRow self.old self.new }
        ensures bound { self.new.len ≤ self.old.len + 30000 }
        ensures wrote { (n : ℕ) (ss : List ℕ) → Backed K.Kind.meaning n (Fine good) (lent_of totals.now [] ss) → Appended self.old (told K.Kind.meaning n (outcome_of K.Kind.meaning (Fine good) (lent_of totals.now [] ss))) self.new }
    {
        match good {
            Good::Done => self.text(b" OK"),
            Good::Total(t) => {
                self.text(b" OK ");
                self.total::<K>(&t);
            }
            Good::Totals(t, u) => {
                self.text(b" OK ");
                self.total::<K>(&t);
                self.text(b" ");
                self.total::<K>(&u);
            }
            Good::Offsets(k) | Good::Schedule(k) => {
                self.text(b" OK");
                self.offsets::<K>(&totals[..k]);
            }
        }
    }

    // What follows the call in its line: OK or NO.
    fn told<K: Kind>(
        &mut self,
        reply: Result<Good<K::Total>, CallFault>,
        totals: &[K::Total],
        steps: &[u32],
    )
        requires room { HasRoom self.old 30000 }
        requires few { Room reply (lent_of totals.now [] steps.now) }
        ensures same { SameRow self.old self.new }
        ensures bound { self.new.len ≤ self.old.len + 30000 }
        ensures wrote { (n : ℕ) → Backed K.Kind.meaning n reply (lent_of totals.now [] steps.now) → Appended self.old (told K.Kind.meaning n (outcome_of K.Kind.meaning reply (lent_of totals.now [] steps.now))) self.new }
    {
        match reply {
            Ok(good) => self.good::<K>(good, totals),
            Err(CallFault::Latency(_)) => self.text(b" NO 1"),
            Err(CallFault::Book(x)) => self.refused(x, steps),
        }
    }
}

// Writes the line of a call and its reply to the start of the row.
pub(crate) fn show<K: Kind>(
    row: &mut [u8],
    e: Entry<'_>,
    reply: Result<Good<K::Total>, CallFault>,
    totals: &[K::Total],
    steps: &[u32],
) -> usize
    requires room { 32768 ≤ length row.old }
    requires few { Room reply (lent_of totals.now [] steps.now) }
    ensures bound { result ≤ 32768 }
    ensures wrote { (n : ℕ) → Backed K.Kind.meaning n reply (lent_of totals.now [] steps.now) → Wrote row.old 0 (line_of K.Kind.meaning n (item_of e.entry) (outcome_of K.Kind.meaning reply (lent_of totals.now [] steps.now))) row.new result }
{
    let mut line = RowWriter::new(row);
    line.asked(e);
    line.told::<K>(reply, totals, steps);
    line.text(b"\n");
    line.len()
}

// Writes the line of a fault of the file.
pub(crate) fn show_fault(row: &mut [u8], f: FileFault) -> usize
    requires { 32768 ≤ length row.old }
    ensures bound { result ≤ 32768 }
    ensures wrote { Wrote row.old 0 (fault_line f) row.new result }
{
    let mut line = RowWriter::new(row);
    line.text(b"FILE ");
    line.number(f.place());
    line.text(b" NO ");
    line.number(f.number());
    line.text(b"\n");
    line.len()
}
