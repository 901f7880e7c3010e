//! What each event does to the mailboxes, and why it is refused.
ghost use Rattle.std.specs.Prelude.{◌≡◌, ◌<◌, length};
ghost use Rattle.std.specs.List.{slice_index_or};
ghost use Rattle.bx_core.specs.declared.waiting.Waiting.{Waiting};
ghost use Rattle.bx_core.specs.Steps.{Steps, IsRequest, InRange, Leads, after};
ghost use Rattle.bx_core.specs.Steps.{claimed, withdrawn, requested, with_waiting};
ghost use Rattle.bx_core.specs.Steps.{scheduled, started, completed, failed, aborted, reaped};

use crate::end::End;
use crate::event::Event;
use crate::mailboxes::Core;
use crate::refused::Refused;
use crate::status::Status;
use crate::waiting::Waiting;
use can_frame::Frame;

impl Core {
    pub(crate) fn take(&mut self, event: Event) -> Result<(), Refused>
        requires { InRange self.old event }
        ensures { Steps (IsRequest event) self.old (after self.old event) result self.new }
    {
        match event {
            Event::Claim { route, mailbox } => self.claim(route, mailbox),
            Event::Request {
                route,
                mailbox,
                number,
                frame,
            } => self.request(route, mailbox, number, frame),
            Event::Withdraw { route, mailbox } => self.withdraw(route, mailbox),
            Event::Schedule { mailbox } => self.schedule(mailbox),
            Event::Start { mailbox } => self.start(mailbox),
            Event::Complete { mailbox } => self.complete(mailbox),
            Event::Fail { mailbox } => self.fail(mailbox),
            Event::Abort { route, mailbox } => self.abort(route, mailbox),
            Event::Reap { mailbox } => self.reap(mailbox),
        }
    }

    #[tactic(auto, unfolding(crate::specs::Steps::claimed))]
    fn claim(&mut self, route: u8, mailbox: u8) -> Result<(), Refused>
        requires in_range { route < length self.old.routes }
        requires in_mailboxes { mailbox < 3 }
        ensures { Steps ⊥ self.old (claimed self.old route mailbox) result self.new }
    {
        if self.claim_at(mailbox).is_some() {
            return Err(Refused::NotEmpty);
        }
        if self.find(mailbox).is_some() {
            return Err(Refused::NotEmpty);
        }
        self.set_claim(mailbox, Some(route));
        Ok(())
    }

    #[tactic(auto, unfolding(crate::specs::Steps::withdrawn))]
    fn withdraw(&mut self, route: u8, mailbox: u8) -> Result<(), Refused>
        requires in_range { route < length self.old.routes }
        requires in_mailboxes { mailbox < 3 }
        ensures { Steps ⊥ self.old (withdrawn self.old route mailbox) result self.new }
    {
        if !self.is_claimed_by(mailbox, route) {
            return Err(Refused::NotOwner);
        }
        self.set_claim(mailbox, None);
        Ok(())
    }

    #[tactic(auto, unfolding(crate::specs::Steps::requested))]
    fn request(&mut self, route: u8, mailbox: u8, number: u32, frame: Frame) -> Result<(), Refused>
        requires in_range { route < length self.old.routes }
        requires in_mailboxes { mailbox < 3 }
        ensures { Steps (Unit {0}) self.old (requested self.old route mailbox number frame) result self.new }
    {
        if !self.is_claimed_by(mailbox, route) {
            return Err(Refused::NotOwner);
        }
        if !self.may_follow(route, number) {
            return Err(Refused::NumberOrder);
        }
        match self.add_request(route, mailbox, number, frame) {
            Ok(()) => Ok(()),
            Err(_) => Err(Refused::Memory),
        }
    }

    /// The request at a place of the queue has come this far.
    fn set_status(&mut self, place: usize, waiting: Waiting, status: Status)
        requires place { place < length self.old.queue }
        requires route { (w : Waiting) → (slice_index_or self.old.queue place w).route ≡ waiting.route }
        requires leads { Leads self.old (with_waiting self.old place (record waiting { status = status })) }
        ensures { self.new ≡ with_waiting self.old place (record waiting { status = status }) }
    {
        self.set_waiting(place, Waiting { status, ..waiting });
    }

    #[tactic(auto, unfolding(crate::specs::Steps::scheduled))]
    fn schedule(&mut self, mailbox: u8) -> Result<(), Refused>
        requires in_mailboxes { mailbox < 3 }
        ensures { Steps ⊥ self.old (scheduled self.old mailbox) result self.new }
    {
        let Some((place, waiting)) = self.find(mailbox) else {
            return Err(Refused::WrongState);
        };
        if !waiting.status.is_pending() {
            return Err(Refused::WrongState);
        }
        if !self.is_next(place, &waiting) {
            return Err(Refused::NotOldest);
        }
        self.set_status(place, waiting, Status::Scheduled);
        Ok(())
    }

    #[tactic(auto, unfolding(crate::specs::Steps::started))]
    fn start(&mut self, mailbox: u8) -> Result<(), Refused>
        requires in_mailboxes { mailbox < 3 }
        ensures { Steps ⊥ self.old (started self.old mailbox) result self.new }
    {
        let Some((place, waiting)) = self.find(mailbox) else {
            return Err(Refused::WrongState);
        };
        if !waiting.may_start() {
            return Err(Refused::WrongState);
        }
        self.set_status(place, waiting, Status::Transmitting);
        Ok(())
    }

    #[tactic(auto, unfolding(crate::specs::Steps::completed))]
    fn complete(&mut self, mailbox: u8) -> Result<(), Refused>
        requires in_mailboxes { mailbox < 3 }
        ensures { Steps ⊥ self.old (completed self.old mailbox) result self.new }
    {
        let Some((place, waiting)) = self.find(mailbox) else {
            return Err(Refused::WrongState);
        };
        if !waiting.status.is_transmitting() {
            return Err(Refused::WrongState);
        }
        self.end(place, waiting, End::Done);
        Ok(())
    }

    #[tactic(auto, unfolding(crate::specs::Steps::failed))]
    fn fail(&mut self, mailbox: u8) -> Result<(), Refused>
        requires in_mailboxes { mailbox < 3 }
        ensures { Steps ⊥ self.old (failed self.old mailbox) result self.new }
    {
        let Some((place, waiting)) = self.find(mailbox) else {
            return Err(Refused::WrongState);
        };
        if !waiting.status.is_transmitting() {
            return Err(Refused::WrongState);
        }
        self.set_status(place, waiting, Status::Scheduled); // the frame is tried again
        Ok(())
    }

    #[tactic(auto, unfolding(crate::specs::Steps::aborted))]
    fn abort(&mut self, route: u8, mailbox: u8) -> Result<(), Refused>
        requires in_range { route < length self.old.routes }
        requires in_mailboxes { mailbox < 3 }
        ensures { Steps ⊥ self.old (aborted self.old route mailbox) result self.new }
    {
        match self.find(mailbox) {
            None => {
                if !self.is_claimed_by(mailbox, route) {
                    return Err(Refused::NotOwner);
                }
                Err(Refused::WrongState)
            }
            Some((place, waiting)) => {
                if waiting.route != route {
                    return Err(Refused::NotOwner);
                }
                if waiting.abort_asked {
                    return Err(Refused::WrongState);
                }
                if waiting.status.is_transmitting() {
                    self.set_waiting(
                        place,
                        Waiting {
                            abort_asked: true,
                            ..waiting
                        },
                    );
                } else {
                    self.end(place, waiting, End::Aborted);
                }
                Ok(())
            }
        }
    }

    #[tactic(auto, unfolding(crate::specs::Steps::reaped))]
    fn reap(&mut self, mailbox: u8) -> Result<(), Refused>
        requires in_mailboxes { mailbox < 3 }
        ensures { Steps ⊥ self.old (reaped self.old mailbox) result self.new }
    {
        let Some((place, waiting)) = self.find(mailbox) else {
            return Err(Refused::WrongState);
        };
        if !waiting.may_reap() {
            return Err(Refused::WrongState);
        }
        self.end(place, waiting, End::Reaped);
        Ok(())
    }
}
