ghost use Rattle.std.specs.Prelude.{◌≡◌, ◌+◌, ◌^◌, ◌≤◌, [], ◌∷◌, length, take, MatchOption};
ghost use Rattle.report.specs.Words.{words_of, sort, body, first, second, signed28};
ghost use Rattle.report.specs.Entries.{opening, entry_of, word_of, bare_of, link_of, walk_of, item_of, found_of, width, taken, file_number, file_place, kind_of, headed_by};

use book::Link;

// A file of more bytes is refused whole.
const MAX_FILE: usize = 65536;

// A WALK in a file has at most so many words.
pub(crate) const MAX_WALK: u32 = 1024;

// The sorts of words: bits 31 to 28. They are the file's own numbers, which an Entry is made of at once.
const SIZE: u32 = 2;

const LINK: u32 = 3;

const MEASURED: u32 = 4;

const WANTED: u32 = 5;

const STRIKE: u32 = 6;

const OFFSET: u32 = 7;

const WALK: u32 = 14;

// The calls of one word, all of it fixed.
const OFFSETS: u32 = 0x8000_0000;

const REALISE: u32 = 0x9000_0000;

const ISSUE: u32 = 0xC000_0000;

const RECALL: u32 = 0xD000_0000;

// The heads: the first word of a file of each kind.
const TICKS_HEAD: u32 = 0x1000_0000;

const PLACES_HEAD: u32 = 0x1100_0000;

/// The kind of latency that a head names.
#[derive(Clone, Copy, Debug, PartialEq, Eq)]
pub enum FileKind {
    Ticks,
    CyclePlaces,
}

/// A call of a file, with the numbers that its words hold.
#[derive(Clone, Copy)]
pub enum Entry<'f> {
    Size(u32),
    Link(Link<i32>),
    Strike(u32, u32),
    Offset(u32, u32),
    Offsets,
    Realise,
    Issue,
    Recall,
    // the bytes of the words
    Walk(&'f [u8]),
}

/// What is wrong with the file itself. It ends the report.
#[derive(Clone, Copy, Debug, PartialEq, Eq)]
pub enum FileFault {
    Long,
    Ragged,
    NoHead,
    Stray(u32),
}

impl FileFault {
    // A match, since a variant with a place has no discriminant.
    pub(crate) fn number(self) -> u32
        ensures { result ≡ file_number self }
    {
        match self {
            FileFault::Long => 21,
            FileFault::Ragged => 20,
            FileFault::NoHead => 22,
            FileFault::Stray(_) => 23,
        }
    }

    // The word at fault, from 1, or 0 for the file as a whole.
    // 0 and no None: it is the number that the report prints.
    pub(crate) fn place(self) -> u32
        ensures { result ≡ file_place self }
    {
        match self {
            FileFault::Long | FileFault::Ragged => 0,
            FileFault::NoHead => 1,
            FileFault::Stray(p) => p,
        }
    }
}

impl FileKind {
    /// The kind that a file's head names; ticks where it names none, and the file then has a fault in either kind.
    pub fn of(file: &[u8]) -> FileKind
        ensures { result ≡ kind_of (words_of file.now) }
    {
        let Some((w, _)) = first_word(file) else {
            return FileKind::Ticks;
        };
        FileKind::try_from(w).unwrap_or(FileKind::Ticks)
    }
}

// The kind whose files begin with the word.
impl TryFrom<u32> for FileKind {
    type Error = FileFault;

    ghost try_from_gives = { λ w r. r ≡ headed_by w };

    fn try_from(w: u32) -> Result<FileKind, FileFault> {
        match w {
            TICKS_HEAD => Ok(FileKind::Ticks),
            PLACES_HEAD => Ok(FileKind::CyclePlaces),
            _ => Err(FileFault::NoHead),
        }
    }
}

// The first word, most significant byte first, and the bytes after it.
pub(crate) fn first_word(bytes: &[u8]) -> Option<(u32, &[u8])>
    ensures { MatchOption result (words_of bytes.now ≡ []) (λ x. (words_of bytes.now ≡ x.0 ∷ words_of x.1.now) × (length x.1.now + 4 ≤ length bytes.now)) }
{
    let (word, rest) = bytes.split_first_chunk::<4>()?;
    Some((u32::from_be_bytes(*word), rest))
}

// Puts the words of the bytes into the row, and says how many.
// By index: of what is written through an adapter of `iter_mut` a proof knows nothing.
pub(crate) fn fill(row: &mut [u32], bytes: &[u8]) -> usize
    requires { length (words_of bytes.now) ≤ length row.old }
    ensures bound { result ≤ length row.new }
    ensures words { take result row.new ≡ words_of bytes.now }
{
    let (words, _) = bytes.as_chunks::<4>();
    for (n, word) in words.iter().enumerate() {
        row[n] = u32::from_be_bytes(*word);
    }
    words.len()
}

fn sort(w: u32) -> u32
    ensures { result ≡ sort w }
{
    w >> 28
}

fn body(w: u32) -> u32
    ensures { result ≡ body w }
{
    w % 0x1000_0000
}

// The two switches that a word names, in 14 bits each.
fn switches(w: u32) -> (u32, u32)
    ensures { result ≡ (first w, second w) }
{
    (w / 0x4000 % 0x4000, w % 0x4000)
}

// A latency's number, in 28-bit two's complement.
// By hand: no integer type has 28 bits.
fn latency_number(w: u32) -> i32
    ensures { result ≡ signed28 w }
{
    let low = body(w) as i32;
    if low < 0x800_0000 {
        low
    } else {
        low - 0x1000_0000
    }
}

// The number of a word, as a clause: a type for it would be taken apart at every sum.
fn link_entry(place: u32, w: u32, bytes: &[u8]) -> Result<Option<Entry<'_>>, FileFault>
    requires { place ≤ 65536 }
    ensures { found_of result ≡ link_of place w (words_of bytes.now) }
{
    let (m, rest) = first_word(bytes)
        .filter(|(m, _)| sort(*m) == MEASURED)
        .ok_or(FileFault::Stray(place + 1))?;
    let (v, _) = first_word(rest)
        .filter(|(v, _)| sort(*v) == WANTED)
        .ok_or(FileFault::Stray(place + 2))?;
    let (from, to) = switches(w);
    Ok(Some(Entry::Link(Link {
        from,
        to,
        measured: latency_number(m),
        wanted: latency_number(v),
    })))
}

#[tactic(auto, using(crate::proofs::Front::words_count, crate::proofs::Front::words_take))]
fn walk_entry(place: u32, n: u32, bytes: &[u8]) -> Result<Option<Entry<'_>>, FileFault>
    requires place { place ≤ 65536 }
    requires short { length bytes.now ≤ 65536 }
    ensures { found_of result ≡ walk_of place n (words_of bytes.now) }
{
    if n > MAX_WALK {
        return Err(FileFault::Stray(place));
    }
    let count = (bytes.len() / 4) as u32;
    if count < n {
        return Err(FileFault::Stray(place + 1 + count));
    }
    Ok(Some(Entry::Walk(&bytes[..4 * n as usize])))
}

// A call of one word, all of it fixed.
fn bare_entry(place: u32, w: u32) -> Result<Option<Entry<'static>>, FileFault>
    ensures { found_of result ≡ bare_of place w }
{
    match w {
        OFFSETS => Ok(Some(Entry::Offsets)),
        REALISE => Ok(Some(Entry::Realise)),
        ISSUE => Ok(Some(Entry::Issue)),
        RECALL => Ok(Some(Entry::Recall)),
        _ => Err(FileFault::Stray(place)),
    }
}

// A call of one word.
fn word_entry(place: u32, w: u32) -> Result<Option<Entry<'static>>, FileFault>
    ensures { found_of result ≡ word_of place w }
{
    let (i, j) = switches(w);
    match sort(w) {
        SIZE => Ok(Some(Entry::Size(body(w)))),
        STRIKE => Ok(Some(Entry::Strike(i, j))),
        OFFSET => Ok(Some(Entry::Offset(i, j))),
        _ => bare_entry(place, w),
    }
}

// The call that begins with the first of the bytes, which is word `place` of the file.
pub(crate) fn entry_at(place: u32, bytes: &[u8]) -> Result<Option<Entry<'_>>, FileFault>
    requires place { place ≤ 65536 }
    requires short { length bytes.now ≤ 65536 }
    ensures { found_of result ≡ entry_of place (words_of bytes.now) }
{
    let Some((w, rest)) = first_word(bytes) else {
        return Ok(None);
    };
    match sort(w) {
        LINK => link_entry(place, w, rest),
        WALK => walk_entry(place, body(w), rest),
        _ => word_entry(place, w),
    }
}

// What the bytes of a whole file say first, where its head has to name the kind.
pub(crate) fn opened(kind: FileKind, bytes: &[u8]) -> Result<Option<Entry<'_>>, FileFault>
    ensures { found_of result ≡ opening kind bytes.now }
{
    if bytes.len() > MAX_FILE {
        return Err(FileFault::Long);
    }
    if bytes.len() % 4 != 0 {
        return Err(FileFault::Ragged);
    }
    let (w, rest) = first_word(bytes).ok_or(FileFault::NoHead)?;
    if FileKind::try_from(w)? != kind {
        return Err(FileFault::NoHead);
    }
    entry_at(2, rest)
}

#[tactic(auto, using(crate::proofs::Front::words_count))]
fn width_of(e: Entry<'_>) -> usize
    ensures { (result ≡ width (item_of e.entry)) × (result ≤ 2 ^ 63) }
{
    match e {
        Entry::Link(_) => 3,
        Entry::Walk(bytes) => 1 + bytes.len() / 4,
        _ => 1,
    }
}

// How many words a call takes from the file: the first brings the head along.
pub(crate) fn words_taken(read: u32, e: Entry<'_>) -> usize
    ensures { result ≡ taken read (item_of e.entry) }
{
    let own = width_of(e);
    // No word is read before the head: 0 is a count here, and no code.
    if read == 0 { 1 + own } else { own }
}

// Apart from the Reader, whose ghost field cites definitions that name this record.
/// Where a reader stands in its file: what is left of it, how many words are read, and whether a fault has ended it.
#[derive(Drop)]
pub struct Place<'f> {
    pub kind: FileKind,
    pub rest: &'f [u8],
    pub read: u32,
    // seen only while a file is read, so a value and no type of its own
    pub ended: bool,
}
