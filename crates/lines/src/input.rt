//! A source, and the buffer that it is read into.

ghost use Rattle.std.specs.Prelude.{◌≡◌, ◌+◌, ◌<◌, ◌≤◌, IfOk, OnOk};
ghost use Rattle.lines.specs.Clip.{clipped_len};
ghost use Rattle.lines.specs.Inside.Input.{ComesNear, GoesOn, HasAccount, HasAdded, HasBlock, IsReady, IsReadyFor};
ghost use Rattle.lines.specs.declared.line_buffer.TheConstants.{READ_SLACK};

use crate::demand::Demand;
use crate::fault::ReadFault;
use crate::line_buffer::{CLIPPED_LEN, GROWTH_STEP, LineBuffer};
use crate::source::ReaderAccount;
use std::io::Read;

/// About the length of a block that ends early: the first one, so that work begins soon, and one
/// that is waited for.
pub(crate) const EARLY_BLOCK_LEN: usize = 8_388_608;

/// A source, and the buffer that it is read into.
#[derive(Drop)]
pub(crate) struct Input<R: Read + Drop> {
    pub(crate) source: ReaderAccount<R>,
    pub(crate) held: LineBuffer,
}

impl<R: Read + Drop> Input<R> {
    /// One read behind what is held. It answers how many bytes the reader gave.
    fn read_more(&mut self) -> Result<usize, ReadFault>
        requires ready { IsReady self.old }
        requires room { self.old.held.filled < self.old.held.size + READ_SLACK }
        ensures account { HasAccount R.remaining self.old result self.new }
        ensures goes_on { OnOk result (GoesOn R.remaining self.old self.new) }
        ensures added { IfOk result (λ count. HasAdded R.remaining self.old count self.new) }
        ensures cut { self.new.held.cut ≡ self.old.held.cut }
    {
        self.held.make_room();
        let filled = self.held.filled;
        let count = self.source.read(self.held.buffer.as_mut_slice(), filled)?;
        self.held.filled += count;
        Ok(count)
    }

    /// Reads until the whole lines come near to `aim` bytes or the reader is at its end, and counts
    /// the bytes. It answers whether the reader is at its end.
    fn fill(&mut self, aim: usize) -> Result<bool, ReadFault>
        requires ready { IsReadyFor self.old aim }
        ensures account { HasAccount R.remaining self.old result self.new }
        ensures goes_on { OnOk result (GoesOn R.remaining self.old self.new) }
        ensures near { IfOk result (λ ended. ComesNear R.remaining aim ended self.new) }
    {
        self.held.scan_lines(aim);
        while self.held.cut + CLIPPED_LEN < aim {
            if self.read_more()? == 0 {
                return Ok(true);
            }
            self.held.scan_lines(aim);
        }
        Ok(false)
    }

    /// Reads as `fill` does, first for about `EARLY_BLOCK_LEN` bytes and then for more, until the
    /// whole lines come near to `aim` bytes, or are waited for, or the reader is at its end. It
    /// answers whether the reader is at its end, and to how many bytes the whole lines were to come
    /// near at last.
    fn fill_for<D: Demand>(&mut self, aim: usize, demand: &D) -> Result<(bool, usize), ReadFault>
        requires ready { IsReadyFor self.old aim }
        ensures account { HasAccount R.remaining self.old result self.new }
        ensures goes_on { OnOk result (GoesOn R.remaining self.old self.new) }
        ensures near { IfOk result (λ r. ComesNear R.remaining r.1 r.0 self.new) }
        ensures within { IfOk result (λ r. r.1 ≤ aim) }
        ensures long { IfOk result (λ r. clipped_len < aim → clipped_len < r.1) }
    {
        let mut near = aim.min(self.held.cut.max(EARLY_BLOCK_LEN));
        let mut ended = self.fill(near)?;
        while !ended && near < aim && !demand.is_waiting() {
            near = aim.min(near.saturating_add(GROWTH_STEP));
            ended = self.fill(near)?;
        }
        Ok((ended, near))
    }

    /// Releases the block before, and reads the next one: whole lines of about `aim` bytes. It
    /// answers whether it is the last.
    pub(crate) fn read_block<D: Demand>(
        &mut self,
        aim: usize,
        demand: &D,
    ) -> Result<bool, ReadFault>
        requires ready { IsReady self.old }
        requires long { clipped_len < aim }
        requires small { aim ≤ self.old.held.size }
        ensures account { HasAccount R.remaining self.old result self.new }
        ensures block { IfOk result (λ ended. HasBlock R.remaining self.old ended self.new) }
    {
        self.held.release();
        let (ended, near) = self.fill_for(aim, demand)?;
        if ended {
            self.held.cut = self.held.filled;
        } else if !self.held.full {
            let window = self.held.filled.min(near) - self.held.cut;
            self.held.skip_lines(window);
        }
        Ok(ended)
    }
}
