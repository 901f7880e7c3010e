//! Frames under new identifiers.

ghost use Rattle.std.specs.Prelude.{◌≡◌};
ghost use Rattle.std.specs.List.{find};
ghost use Rattle.can_frame.specs.Rewrites.{same_identifier, replaced, rewritten};

use crate::frame::Frame;
use crate::identifier::Id;

/// An entry of a gateway's list of new identifiers: a frame with the identifier `from` is sent on
/// with the identifier `to`, both of either format.
#[derive(Clone, Copy, Debug, Default, PartialEq, Eq)]
pub struct Rewrite {
    /// The identifier that the entry is for, format and number.
    pub from: Id,
    /// The identifier that the frame is sent on with.
    pub to: Id,
}

impl Rewrite {
    fn is_for(&self, id: Id) -> bool
        ensures { result ≡ same_identifier self.now.from id }
    {
        self.from == id
    }
}

fn first_for(entries: &[Rewrite], id: Id) -> Option<Rewrite>
    ensures { result ≡ find (λ e. same_identifier e.from id) entries.now }
{
    entries.iter().copied().find(|entry| entry.is_for(id))
}

fn replaced(entries: &[Rewrite], id: Id) -> Id
    ensures { result ≡ replaced entries.now id }
{
    first_for(entries, id).map_or(id, |entry| entry.to)
}

/// The frame under the new identifier of the first entry that is for its own; where no entry is, the
/// frame as it was. RTR, data length code and bytes stay. An entry is looked at once: the new
/// identifier is not looked up again.
#[tactic(auto, unfolding(crate::specs::Rewrites::rewritten))]
pub fn rewritten(entries: &[Rewrite], frame: &Frame) -> Frame
    ensures { result ≡ rewritten entries.now frame.now }
{
    frame.with_id(replaced(entries, frame.id()))
}
