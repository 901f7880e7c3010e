//! A reader that begins elsewhere: behind a text, or where another one stands.

ghost use Rattle.std.specs.Prelude.{◌≡◌, ◌≤◌, length, take};
ghost use Rattle.can_frame.specs.Reading.{StandsAfter};

use crate::level_run::LevelRun;
use crate::reader::{Place, Reader};

impl Reader {
    /// It becomes a reader that was new and was pushed each of these levels, SOF first. So one reads on that has lost
    /// arbitration: what it drove so far is what it has read.
    pub fn read_anew(&mut self, text: &[bool])
        ensures { StandsAfter self.new text.now }
    {
        let begun = self.begin(text);
        let ahead = &text[begun..];
        // as a sender's levels do
        let read = self.reads_on_by(ahead);
        for level in &ahead[read..] {
            let _step = self.push(*level);
        }
    }

    /// It becomes a new one, and reads the SOF with which this text begins, if it does: how many levels it has read.
    #[inline(always)]
    fn begin(&mut self, text: &[bool]) -> usize
        ensures few { result ≤ length text.now }
        ensures stands { StandsAfter self.new (take result text.now) }
    {
        // in place: a new one would be moved here
        self.run = LevelRun::new();
        self.levels.clear();
        self.place = Place::Region;
        if text.is_empty() {
            return 0;
        }
        if text[0] {
            return 0;
        }
        self.run.push(false);
        self.levels.push(false);
        1
    }

    /// A reader that is the same.
    pub fn copy(&self) -> Reader
        ensures { result ≡ self.now }
    {
        let mut reader = Reader::new();
        reader.copy_from(self);
        reader
    }

    /// It becomes the same as another one, in place.
    pub fn copy_from(&mut self, other: &Reader)
        ensures { self.new ≡ other.now }
    {
        self.run = other.run;
        self.levels.clear();
        // it has the same room
        let _ = self.levels.try_extend_from_slice(other.levels.as_slice());
        self.place = other.place;
        self.told = other.told;
    }
}
