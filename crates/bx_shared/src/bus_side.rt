//! The bus's seat is the bus side of mailboxes.
use crate::bus_seat::BusSeat;
use bx_core::TxBus;
use can_frame::Frame;

impl<R> TxBus<R> for BusSeat {
    ghost use Rattle.std.specs.Prelude.{◌≡◌, Some, None, IfSome, IfNone};
    ghost use Rattle.bx_core.specs.TxBus.{BusPast, IsUndone, after_start};
    ghost use Rattle.bx_shared.specs.Calls.{SameMailboxes, Readied, Began, NotBegan};
    ghost use Rattle.bx_shared.specs.Sides.{BusAfter, same_mailboxes-self, same_mailboxes-on};

    ghost bus_after = { BusAfter };

    // whoever drives this bus side says when it asked: of any calls that may have been made
    ghost bus_asked = { λ s calls. Unit };

    ghost transmitting = { λ s. s.bus.sends };

    ghost bus_stays = { SameMailboxes };

    fn ready(&mut self, _rt: &R) -> bool
        ensures past { (past : BusPast) → BusAfter self.old past → BusAfter self.new past }
        ensures transmits { self.new.bus.sends ≡ self.old.bus.sends }
        ensures stays { SameMailboxes self.old self.new }
        ensures ready { Readied self.old.bus self.new.bus result }
    {
        BusSeat::ready(self)
    }

    fn start(&mut self, _rt: &R) -> Option<(u8, u32, Frame)>
        ensures past { (past : BusPast) → BusAfter self.old past → BusAfter self.new (after_start past result) }
        ensures undone { (past : BusPast) → BusAfter self.old past → IfSome result (λ x. IsUndone past x) }
        ensures idle { IfSome result (λ x. self.old.bus.sends ≡ None) }
        ensures transmits { IfSome result (λ x. self.new.bus.sends ≡ Some x) }
        ensures none { IfNone result (self.new.bus.sends ≡ self.old.bus.sends) }
        ensures stays { SameMailboxes self.old self.new }
        ensures began { IfSome result (Began self.old.bus self.new.bus) }
        ensures rests { IfNone result (NotBegan self.old.bus self.new.bus) }
    {
        BusSeat::start(self)
    }

    fn complete(&mut self, _rt: &R) {
        BusSeat::complete(self);
    }

    fn fail(&mut self, _rt: &R) -> Option<(u8, u32)> {
        BusSeat::fail(self)
    }

    ghost bus_stays_self = { same_mailboxes-self };

    ghost bus_stays_on = { same_mailboxes-on };
}
