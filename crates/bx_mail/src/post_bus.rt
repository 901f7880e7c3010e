//! The bus side of the mailboxes over a post.
ghost use Rattle.std.specs.Prelude.{◌≡◌, ◌≤◌, ◌↔◌, Bool, List, [], None, Some, IsTrue, IsSome};
ghost use Rattle.bx_core.specs.TxBus.{BusPast, BusCall};
ghost use Rattle.bx_mail.specs.Boxes.{on_bus_now, may_start_first, starting, left_first, failed_first, reaping};
ghost use Rattle.bx_mail.specs.Sides.{Runs, IsRunning, BusKeeps};

use crate::boxes::{self, Boxes};
use crate::log::Log;
use crate::posting::{Asks, Posting};
use crate::rule::{Line, Takes};
use bx_core::TxBus;
use bx_shared::Tally;
use can_frame::Frame;
use crossbeam_queue::Pass;
use std::alloc::Global;
use std::marker::Model;
use std::sync::{Arc, Wait};

/// The bus side of the mailboxes over a post: it takes the posts of all routes, and keeps three requests in the
/// mailboxes and one aside. Contracts see its queue, for how many routes it is, all the posts that it took, the
/// requests in the mailboxes, the oldest first, the one aside, and how many requests of each route were sent and
/// reaped.
#[derive(Drop)]
pub struct PostBus {
    pub(crate) line: Arc<Line, Global>,
    pub(crate) pass: Pass<Posting, Log>,
    pub(crate) boxes: Boxes,
    // a request that was taken where no mailbox was empty
    pub(crate) aside: Option<Posting>,
    pub(crate) tally: Tally,
}

impl Model for PostBus {
    ghost use Rattle.bx_mail.specs.Sides.{BusSide};

    ghost Value = { BusSide };

    ghost use Rattle.bx_mail.specs.BusParts.{bus_view, IsBus};

    ghost view = { bus_view };

    ghost invariant = { IsBus };
}

impl PostBus {
    /// Whether a request is transmitting: the test for the condition of `complete` and `fail`.
    pub fn is_transmitting(&self) -> bool
        ensures { IsTrue result ↔ IsSome (on_bus_now self.now.boxes) }
    {
        boxes::is_transmitting(self.boxes.as_slice())
    }

    /// Does nothing. Its contract says that there are at most eight routes, and that the events of some past led here.
    pub(crate) fn facts(&self)
        ensures few { self.now.routes ≤ 8 }
        ensures runs { IsRunning self.now }
    {
        let _ = &self.boxes;
    }

    /// The request aside goes into the lowest empty mailbox, where one is empty.
    fn seat_aside(&mut self)
        ensures past { (past : BusPast) → Runs self.old past → Runs self.new past }
        ensures transmits { on_bus_now self.new.boxes ≡ on_bus_now self.old.boxes }
        ensures stays { BusKeeps self.old self.new }
        ensures tally { self.new.tally ≡ self.old.tally }
    {
        let Some(posting) = self.aside else {
            return;
        };
        if boxes::seat(&mut self.boxes, &posting) {
            self.aside = None;
        }
    }

    /// Takes the next post, where none is aside. Whether there was one.
    fn take_post<R: Wait>(&mut self, rt: &R) -> bool
        requires { self.old.aside ≡ None }
        ensures past { (past : BusPast) → Runs self.old past → Runs self.new past }
        ensures transmits { on_bus_now self.new.boxes ≡ on_bus_now self.old.boxes }
        ensures stays { BusKeeps self.old self.new }
        ensures tally { self.new.tally ≡ self.old.tally }
    {
        let Some(posting) = self.line.pop_as::<Takes, R>(rt, &mut self.pass) else {
            return false;
        };
        match posting.what {
            Asks::Transmit(_) => self.aside = Some(posting),
            Asks::Abort => boxes::abort(&mut self.boxes, posting.route, posting.number),
        }
        true
    }

    /// Takes at most sixteen posts, and none behind a request that found no empty mailbox.
    fn take_posts<R: Wait>(&mut self, rt: &R)
        ensures past { (past : BusPast) → Runs self.old past → Runs self.new past }
        ensures transmits { on_bus_now self.new.boxes ≡ on_bus_now self.old.boxes }
        ensures stays { BusKeeps self.old self.new }
        ensures tally { self.new.tally ≡ self.old.tally }
    {
        for _ in 0..16usize {
            self.seat_aside();
            if self.aside.is_some() || !self.take_post(rt) {
                return;
            }
        }
        self.seat_aside();
    }
}

impl<R: Wait> TxBus<R> for PostBus {
    ghost use Rattle.std.specs.Prelude.{◌≡◌, ◌++◌, List, [], ◌∷◌, Option, Some, None, IsSome};
    ghost use Rattle.std.specs.Prelude.{IfSome, IfNone, option_map};
    ghost use Rattle.bx_core.specs.TxBus.{Item, BusPast, IsUndone, label_of, after_start, after_complete, after_fail};
    ghost use Rattle.bx_core.specs.TxBus.{BusCall, asked_ready, asked_start};
    ghost use Rattle.bx_mail.specs.Boxes.{on_bus_now, may_start_first, starting, left_first, failed_first, reaping};
    ghost use Rattle.bx_mail.specs.Sides.{HasRun, BusKeeps};
    ghost use Rattle.bx_mail.specs.SideLaws.{bus_keeps-self, bus_keeps-on};

    ghost bus_after = { HasRun };

    // whoever drives this bus side says when it asked: of any calls that may have been made
    ghost bus_asked = { λ b calls. Unit };

    ghost transmitting = { λ b. on_bus_now b.boxes };

    ghost bus_stays = { BusKeeps };

    /// Takes at most sixteen posts, front to back, and then schedules the oldest request in a mailbox, where none is
    /// scheduled or transmitting (RM0008, bxCAN, "Transmit priority"; TXFP is set). A request goes into the lowest
    /// empty mailbox; where none is empty it is kept aside, and no further post is taken until one is empty. An
    /// abort empties the mailbox of a request that isn't transmitting, and is kept for one that is. Whether the
    /// request that is scheduled may start. Takes no memory. May wait while a route is in the middle of a call.
    fn ready(&mut self, rt: &R) -> bool
        ensures past { (past : BusPast) → HasRun self.old past → HasRun self.new past }
        ensures transmits { on_bus_now self.new.boxes ≡ on_bus_now self.old.boxes }
        ensures stays { BusKeeps self.old self.new }
        ensures ready { result ≡ may_start_first self.new.boxes }
    {
        self.take_posts(rt);
        boxes::schedule(&mut self.boxes)
    }

    /// Starts the request that is scheduled: its route, its number and its frame. It is the oldest in a mailbox, and
    /// was neither sent nor reaped before. `None` where it may not start, and then nothing changed.
    fn start(&mut self, _rt: &R) -> Option<(u8, u32, Frame)>
        ensures past { (past : BusPast) → HasRun self.old past → HasRun self.new (after_start past result) }
        ensures undone { (past : BusPast) → HasRun self.old past → IfSome result (λ x. IsUndone past x) }
        ensures idle { IfSome result (λ x. on_bus_now self.old.boxes ≡ None) }
        ensures transmits { IfSome result (λ x. on_bus_now self.new.boxes ≡ Some x) }
        ensures none { IfNone result (on_bus_now self.new.boxes ≡ on_bus_now self.old.boxes) }
        ensures stays { BusKeeps self.old self.new }
        ensures oldest { result ≡ starting self.old.boxes }
        ensures unchanged { IfNone result (self.new ≡ self.old) }
    {
        boxes::start(&mut self.boxes)
    }

    /// The frame that is transmitting was sent: its mailbox is empty, and one more request of its route counts as sent.
    /// The test for the condition is `is_transmitting`.
    fn complete(&mut self, _rt: &R)
        requires { IsSome (on_bus_now self.old.boxes) }
        ensures past { (past : BusPast) → HasRun self.old past
            → HasRun self.new (after_complete past (on_bus_now self.old.boxes)) }
        ensures idle { on_bus_now self.new.boxes ≡ None }
        ensures stays { BusKeeps self.old self.new }
        ensures boxes { self.new.boxes ≡ left_first self.old.boxes }
    {
        let Some(item) = boxes::complete(&mut self.boxes) else {
            return;
        };
        self.tally.add_done(item);
    }

    /// The transmission failed, by an error or by lost arbitration. Just where its abort was asked the request is
    /// reaped: its mailbox is empty, and its route and its number are told. Else it stays the oldest, scheduled to
    /// be tried again. The test for the condition is `is_transmitting`.
    fn fail(&mut self, _rt: &R) -> Option<(u8, u32)>
        requires { IsSome (on_bus_now self.old.boxes) }
        ensures past { (past : BusPast) → HasRun self.old past → HasRun self.new (after_fail past result) }
        ensures reaped { IfSome result (λ x. option_map label_of (on_bus_now self.old.boxes) ≡ Some x) }
        ensures idle { on_bus_now self.new.boxes ≡ None }
        ensures stays { BusKeeps self.old self.new }
        ensures boxes { self.new.boxes ≡ failed_first self.old.boxes }
        ensures result { result ≡ reaping self.old.boxes }
    {
        let (route, number) = boxes::fail(&mut self.boxes)?;
        self.tally.add_reaped((route, number));
        Some((route, number))
    }

    ghost bus_stays_self = { bus_keeps-self };

    ghost bus_stays_on = { bus_keeps-on };
}
