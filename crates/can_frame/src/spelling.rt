//! A frame as its sender drives it.

ghost use Rattle.std.specs.Prelude.{◌≡◌, ◌⊎◌, ◌≤◌, ◌<◌, ◌+◌, ◌-◌, ◌∷◌, List, Bool, true};
ghost use Rattle.std.specs.Prelude.{false, IfNone, IfSome, ℕ, length, reverse, min, take};
ghost use Rattle.can_frame.specs.Sending.{IsSpelling, IsBitAt, SendsOn, StandAhead, left_ahead, level_at, rtr_place};
ghost use Rattle.can_frame.specs.Sending.{SaysBit, Tallies};

use crate::frame::Frame;
use crate::identifier::Id;
use crate::level_run::LevelRun;
use crate::sending::wire;
use arrayvec::ArrayVec;

/// What a bit is for a sender that drives it recessive and samples it dominant.
#[derive(Clone, Copy)]
pub enum SendBit {
    /// One of the arbitration field, from the first identifier bit to RTR, and no stuff bit.
    Arbitration,
    /// A stuff bit that stands before RTR.
    ArbitrationStuffBit,
    /// Any other.
    Other,
}

/// The levels of a frame from SOF to the last bit of EOF, the ACK slot recessive, and the place of RTR
/// among them, stuff bits left out and SOF at 0.
#[derive(Drop)]
pub struct Spelling {
    /// The levels, one a bit time, true being recessive.
    pub levels: ArrayVec<bool, 160>,
    /// The place of RTR.
    pub rtr: u8,
}

impl Spelling {
    /// What a sender holds before its first frame.
    pub(crate) fn empty() -> Spelling {
        Spelling {
            levels: ArrayVec::new(),
            rtr: 0,
        }
    }

    /// The spelling of this frame.
    #[inline(never)]
    pub(crate) fn of(frame: &Frame) -> Spelling
        ensures { IsSpelling frame.now result }
    {
        frame.facts();
        let rtr = place_of_rtr(frame.id());
        Spelling {
            levels: wire(frame),
            rtr,
        }
    }

    /// The level in this place.
    pub fn level(&self, place: u8) -> bool
        ensures { result ≡ level_at self.now place }
    {
        match self.levels.as_slice().get(usize::from(place)) {
            Some(level) => *level,
            None => true,
        }
    }

    /// The levels before this place.
    pub fn before(&self, place: u8) -> &[bool]
        ensures { result.now ≡ take place self.now.levels.items }
    {
        let levels = self.levels.as_slice();
        &levels[..usize::from(place).min(levels.len())]
    }

    /// Whether the ACK slot has this place. The ACK delimiter and seven bits of EOF stand behind it.
    pub fn is_slot(&self, place: u8) -> bool
        ensures yes { result ≡ true → place + 9 ≡ length self.now.levels.items }
        ensures no { result ≡ false → place + 9 ≡ length self.now.levels.items → ⊥ }
    {
        usize::from(place) + 9 == self.levels.len()
    }

    /// Whether the last bit of EOF has this place.
    pub fn is_last(&self, place: u8) -> bool
        ensures yes { result ≡ true → place + 1 ≡ length self.now.levels.items }
        ensures no { result ≡ false → place + 1 ≡ length self.now.levels.items → ⊥ }
    {
        usize::from(place) + 1 == self.levels.len()
    }

    /// Whether the level in this place is this one; told only of the places before the ACK slot.
    pub fn is_echo(&self, place: u8, level: bool) -> bool
        ensures before { result ≡ true → place + 9 < length self.now.levels.items }
        ensures same { result ≡ true → level ≡ level_at self.now place }
    {
        if usize::from(place) + 9 >= self.levels.len() {
            return false;
        }
        level == self.level(place)
    }

    /// The level in this place, if it is neither the ACK slot nor the last bit of EOF.
    pub fn level_elsewhere(&self, place: u8) -> Option<bool>
        ensures slot { IfSome result (λ level. place + 9 ≡ length self.now.levels.items → ⊥) }
        ensures last { IfSome result (λ level. place + 1 ≡ length self.now.levels.items → ⊥) }
        ensures level { IfSome result (λ level. level ≡ level_at self.now place) }
        ensures none { IfNone result ((place + 9 ≡ length self.now.levels.items)
            ⊎ (place + 1 ≡ length self.now.levels.items)) }
    {
        let left = self.levels.len().saturating_sub(usize::from(place));
        if left == 9 || left == 1 {
            return None;
        }
        Some(self.level(place))
    }

    /// Those levels from this place on that stand before the ACK slot, or behind it but for the last bit of EOF, `most`
    /// at most.
    pub fn ahead(&self, place: u8, most: usize) -> &[bool]
        ensures few { length result.now ≤ most }
        ensures short { place + length result.now ≤ 255 }
        ensures ahead { StandAhead self.now place result.now }
        ensures all { length result.now ≡ min most (left_ahead self.now place) }
    {
        let levels = self.levels.as_slice();
        let from = usize::from(place);
        let end = if from + 9 <= levels.len() {
            levels.len() - 9
        } else {
            levels.len().saturating_sub(1)
        };
        if end <= from {
            return &[];
        }
        &levels[from..end.min(from.saturating_add(most))]
    }

    /// Whether the sender goes on where the bit in this place has this level: in the ACK slot with a dominant one,
    /// elsewhere with the one that it drives, and with none in the last bit of EOF.
    pub fn goes_on(&self, place: u8, level: bool) -> bool
        ensures yes { result ≡ true → SendsOn level self.now place }
        ensures no { result ≡ false → SendsOn level self.now place → ⊥ }
    {
        match self.level_elsewhere(place) {
            Some(own) => own == level,
            None => !level && self.is_slot(place),
        }
    }

    /// What the bit in this place is.
    #[inline(never)]
    pub fn bit(&self, place: u8) -> SendBit
        ensures { IsBitAt result self.now place }
    {
        let levels = self.levels.as_slice();
        let place = usize::from(place);
        if place > levels.len() {
            return SendBit::Other;
        }
        let text = &levels[..place];
        if place <= usize::from(self.rtr) {
            return bit_in_front(text);
        }
        bit_behind(text, self.rtr)
    }
}

/// The place of RTR behind SOF and identifier, and behind SRR and IDE in the extended format.
fn place_of_rtr(id: Id) -> u8
    ensures { result ≡ rtr_place id }
{
    if id.is_extended() {
        return 32;
    }
    12
}

/// How a text ends, and how many of its levels are no stuff bits.
#[derive(Drop)]
struct Tally {
    run: LevelRun,
    data: u8,
}

impl Tally {
    /// The next level of the text.
    fn push(&mut self, level: bool)
        ensures { (text : List Bool) → Tallies self.old text → Tallies self.new (level ∷ text) }
    {
        let is_stuff_bit = self.run.is_full();
        self.run.push(level);
        if !is_stuff_bit {
            self.data = self.data.saturating_add(1);
        }
    }
}

/// How this text ends.
fn tally_of(text: &[bool]) -> Tally
    ensures { Tallies result (reverse text.now) }
{
    let mut tally = Tally {
        run: LevelRun::new(),
        data: 0,
    };
    for level in text {
        tally.push(*level);
    }
    tally
}

/// What the bit behind this text is, where no more levels stand in the text than before RTR: it makes no difference
/// how many of them are stuff bits, so the newest five are looked at alone.
fn bit_in_front(text: &[bool]) -> SendBit
    ensures { (rtr : ℕ) → length text.now ≤ rtr → SaysBit result (reverse text.now) rtr }
{
    if text.is_empty() {
        return SendBit::Other;
    }
    let newest = tally_of(&text[text.len().saturating_sub(5)..]);
    if newest.run.is_full() {
        SendBit::ArbitrationStuffBit
    } else {
        SendBit::Arbitration
    }
}

/// What the bit behind this text is.
fn bit_behind(text: &[bool], rtr: u8) -> SendBit
    ensures { rtr ≤ 32 → SaysBit result (reverse text.now) rtr }
{
    let tally = tally_of(text);
    if tally.data > rtr {
        return SendBit::Other;
    }
    if tally.run.is_full() {
        return SendBit::ArbitrationStuffBit;
    }
    if tally.data == 0 {
        return SendBit::Other;
    }
    SendBit::Arbitration
}
