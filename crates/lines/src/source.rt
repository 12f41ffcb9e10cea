//! A reader, and the account of what it answered.

ghost use Rattle.std.specs.Prelude.{◌≡◌, ◌<◌, false, IsErr, IsOk, IfOk, length, take};
ghost use Rattle.lines.specs.Inside.Input.{HasGot};
ghost use Rattle.lines.specs.Rounds.{HasCause, HasRead};
ghost use Rattle.semantics.specs.Limits.{input_limit};

use crate::fault::ReadFault;
use std::io::Read;

/// The number of bytes that an input stays below.
const INPUT_LIMIT: usize = 0x8000_0000_0000_0000;

/// A reader, beside the account of what it answered. Nothing but a read changes these.
#[derive(Drop)]
pub(crate) struct ReaderAccount<R: Read + Drop> {
    reader: R,
    /// How many bytes it gave.
    taken: usize,
    /// Whether a read answered an error.
    erred: bool,
}

impl<R: Read + Drop> ReaderAccount<R> {
    /// A reader that was not asked yet.
    pub(crate) fn new(reader: R) -> ReaderAccount<R>
        ensures reader { result.reader ≡ reader }
        ensures taken { result.taken ≡ 0 }
        ensures erred { result.erred ≡ false }
    {
        ReaderAccount {
            reader,
            taken: 0,
            erred: false,
        }
    }

    /// One read into the buffer from place `at` on. It answers how many bytes the reader gave.
    ///
    /// No clause can name what the reader answered: that `erred` is set where it answered an error,
    /// and nowhere else, is left to these lines.
    pub(crate) fn read(&mut self, buffer: &mut [u8], at: usize) -> Result<usize, ReadFault>
        requires room { at < length buffer.old }
        requires limit { self.old.taken < input_limit }
        ensures length { length buffer.new ≡ length buffer.old }
        ensures front { take at buffer.new ≡ take at buffer.old }
        ensures got { IfOk result (λ count.
            HasGot R.remaining self.old count self.new buffer.new at) }
        ensures read { HasRead (R.remaining self.old.reader) (R.remaining self.new.reader)
            self.old.taken self.new.taken }
        ensures cause { IsErr result → HasCause self.new.erred self.new.taken }
        ensures told { IsOk result → self.new.erred ≡ self.old.erred }
    {
        match self.reader.read(&mut buffer[at..]) {
            Ok(count) => {
                self.taken += count;
                if self.taken >= INPUT_LIMIT {
                    return Err(ReadFault);
                }
                Ok(count)
            }
            Err(_) => {
                self.erred = true;
                Err(ReadFault)
            }
        }
    }
}
