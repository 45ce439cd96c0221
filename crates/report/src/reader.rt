ghost use Rattle.std.specs.Prelude.{◌≡◌, ◌+◌, ◌*◌, ◌≤◌, length, Some as Found, Ok as Good};
ghost use Rattle.report.specs.Entries.{item_of, found_of};
ghost use Rattle.report.specs.Reading.{reading_of, unread, ahead, past, shut, first_word};

use crate::file::{Entry, FileFault, FileKind, Place, entry_at, opened, words_taken};

/// Reads a file call by call: `peek` tells the next one, `pass` goes on behind it.
#[derive(Drop)]
pub struct Reader<'f> {
    at: Place<'f>,
    ghost placed: { (1 ≤ at.read → 4 * at.read + length at.rest.now ≤ 65536) },
}

impl<'f> Reader<'f> {
    pub(crate) fn new(kind: FileKind, file: &'f [u8]) -> Reader<'f>
        ensures { reading_of result.at ≡ unread kind file.now }
    {
        Reader {
            at: Place {
                kind,
                rest: file,
                read: 0,
                ended: false,
            },
        }
    }

    pub(crate) fn peek(&self) -> Result<Option<Entry<'f>>, FileFault>
        ensures { found_of result ≡ ahead (reading_of self.now.at) }
    {
        if self.at.ended {
            return Ok(None);
        }
        // No word is read before the head: 0 is a count here, and no code.
        if self.at.read == 0 {
            return opened(self.at.kind, self.at.rest);
        }
        entry_at(self.at.read + 1, self.at.rest)
    }

    // The number of the next call's first word.
    pub(crate) fn first_word(&self) -> u32
        ensures value { result ≡ first_word (reading_of self.now.at) }
        ensures small { result ≤ 65536 }
    {
        // No word is read before the head: 0 is a count here, and no code.
        if self.at.read == 0 {
            2
        } else {
            self.at.read + 1
        }
    }

    pub(crate) fn shut(&mut self)
        ensures { reading_of self.new.at ≡ shut (reading_of self.old.at) }
    {
        self.at.ended = true;
    }

    pub(crate) fn pass(&mut self, e: Entry<'_>)
        requires { ahead (reading_of self.old.at) ≡ Good (Found (item_of e)) }
        ensures { reading_of self.new.at ≡ past (reading_of self.old.at) (item_of e.entry) }
    {
        let taken = words_taken(self.at.read, e);
        self.at.read += taken as u32;
        self.at.rest = &self.at.rest[4 * taken..];
    }
}
