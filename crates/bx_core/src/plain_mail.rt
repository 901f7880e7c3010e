//! The mailboxes of a controller whose routes and bus share one thread.
ghost use Rattle.std.specs.Prelude.{◌≡◌, ◌<◌, ◌≤◌, ◌↔◌, ℕ, length, true, false, IsTrue, IsErr, IfOk, OnErr};
ghost use Rattle.std.specs.Prelude.{Option, None, Some, IsSome, IfSome, IfNone, option_map};
ghost use Rattle.bx_core.specs.States.{State, opening, opening_by, lists_of, IsLowestEmpty};
ghost use Rattle.bx_core.specs.Steps.{last_number, greatest_number};
ghost use Rattle.bx_core.specs.Law.{Law};
ghost use Rattle.bx_core.specs.Lists.{Has};
ghost use Rattle.bx_core.specs.TxBus.{BusPast, IsUndone, no_bus_past, label_of};
ghost use Rattle.bx_core.specs.TxBus.{after_start, after_complete, after_fail};
ghost use Rattle.bx_core.specs.RouteTx.{RoutePast, no_route_past};
ghost use Rattle.bx_core.specs.PlainMail.{core_of, short_of, sending, is_ready, readied, heard_of};
ghost use Rattle.bx_core.specs.PlainMail.{Starts, Completes, Fails, Requests, Aborts, HearsOnly, AnswersReady, oldest};
ghost use Rattle.bx_core.specs.Stands.{BusStands, RouteStands, BusKeeps};

use crate::answer::{AbortAnswer, Sent};
use crate::event::Event;
use crate::gate::Gate;
use crate::mailboxes::Core;
use crate::point::{Heard, Point};
use crate::tx_bus::TxBus;
use can_frame::Frame;
use std::alloc::Global;

/// The three transmit mailboxes of one controller, for one thread: a `Core` that its bus side, a
/// `TxBus`, and its routes, each a `PlainRoute`, take turns with.
#[derive(Drop)]
pub struct PlainMail {
    core: Core,
    short: bool,
}

impl PlainMail {
    /// Three empty mailboxes, and 1 to 8 routes that requested nothing yet. The priority is the order
    /// of requests: TXFP is set (RM0008, bxCAN, "Transmit priority"). Takes no memory.
    pub fn new(alloc: Global, routes: u8) -> PlainMail
        requires few { routes ≤ 8 }
        requires some { 1 ≤ routes }
        ensures core { core_of result ≡ opening routes }
        ensures short { short_of result ≡ false }
        ensures idle { sending (core_of result) ≡ None }
        ensures bus { BusStands (core_of result) no_bus_past }
        ensures route { (route : ℕ) → RouteStands (core_of result) route no_route_past }
    {
        PlainMail::with_txfp(alloc, routes, true)
    }

    /// The same as `new`, with this priority: true is by the order of requests, false by identifier, as
    /// `Core::with_txfp` says.
    pub fn with_txfp(alloc: Global, routes: u8, txfp: bool) -> PlainMail
        requires few { routes ≤ 8 }
        requires some { 1 ≤ routes }
        ensures core { core_of result ≡ opening_by txfp routes }
        ensures short { short_of result ≡ false }
        ensures idle { sending (core_of result) ≡ None }
        ensures bus { BusStands (core_of result) no_bus_past }
        ensures route { (route : ℕ) → RouteStands (core_of result) route no_route_past }
    {
        PlainMail {
            core: Core::with_txfp(alloc, routes, txfp),
            short: false,
        }
    }

    /// The claims, the requests that wait, and each route's lists.
    pub fn core(&self) -> &Core
        ensures { result.now ≡ core_of self.now }
    {
        &self.core
    }

    /// Whether a request was answered `NotNow` since it wanted memory and was refused it. It stays
    /// so from then on.
    pub fn short(&self) -> bool
        ensures { result ≡ short_of self.now }
    {
        self.short
    }

    /// Whether a request is transmitting: the test for the condition of `complete` and `fail`.
    pub fn is_transmitting(&self) -> bool
        ensures { IsTrue result ↔ IsSome (sending (core_of self.now)) }
    {
        self.core.on_bus().is_some()
    }
}

// What the traits' calls do to the core.
impl PlainMail {
    fn schedule_next(&mut self) -> bool
        ensures core { core_of self.new ≡ readied (core_of self.old) }
        ensures ready { result ≡ is_ready (core_of self.new) }
        ensures short { short_of self.new ≡ short_of self.old }
    {
        if let Some(next) = self.core.next() {
            let _ = self.core.apply(Event::Schedule {
                mailbox: next.mailbox,
            });
        }
        match self.core.in_turn() {
            Some(waiting) => waiting.may_start(),
            None => false,
        }
    }

    fn start_scheduled(&mut self) -> Option<(u8, u32, Frame)>
        ensures core { Starts (core_of self.old) result (core_of self.new) }
        ensures short { short_of self.new ≡ short_of self.old }
    {
        self.core.keep_law();
        match self.core.in_turn() {
            None => None,
            Some(waiting) => {
                if !waiting.may_start() {
                    return None;
                }
                let _ = self.core.apply(Event::Start {
                    mailbox: waiting.mailbox,
                });
                Some((waiting.route, waiting.number, waiting.frame))
            }
        }
    }

    fn complete_sent(&mut self)
        requires { IsSome (sending (core_of self.old)) }
        ensures core { Completes (core_of self.old) (core_of self.new) }
        ensures short { short_of self.new ≡ short_of self.old }
    {
        self.core.keep_law();
        if let Some(waiting) = self.core.on_bus() {
            let _ = self.core.apply(Event::Complete {
                mailbox: waiting.mailbox,
            });
        }
    }

    fn fail_sent(&mut self) -> Option<(u8, u32)>
        requires { IsSome (sending (core_of self.old)) }
        ensures core { Fails (core_of self.old) result (core_of self.new) }
        ensures short { short_of self.new ≡ short_of self.old }
    {
        self.core.keep_law();
        match self.core.on_bus() {
            None => None,
            Some(waiting) => {
                let _ = self.core.apply(Event::Fail {
                    mailbox: waiting.mailbox,
                });
                if !waiting.abort_asked {
                    return None;
                }
                let _ = self.core.apply(Event::Reap {
                    mailbox: waiting.mailbox,
                });
                Some((waiting.route, waiting.number))
            }
        }
    }

    /// In the lowest empty mailbox. The gate passes only `Answered`, at the end.
    pub(crate) fn request_of<G: Gate>(
        &mut self,
        route: u8,
        number: u32,
        frame: Frame,
        gate: &mut G,
    ) -> Sent
        requires in_range { route < length (core_of self.old).routes }
        requires above { last_number (lists_of (core_of self.old) route).requested < number }
        requires limit { number ≤ greatest_number }
        ensures request { Requests self.old route number frame result self.new }
        ensures hears { HearsOnly G.may_have_heard (core_of self.old) result gate.old gate.new }
    {
        match self.core.lowest_empty() {
            None => {
                gate.pass(Point::Answered(Heard::Not));
                Sent::NotNow
            }
            Some(mailbox) => {
                let sent = self.request_in(mailbox, route, number, frame);
                gate.pass(Point::Answered(heard(sent, mailbox)));
                sent
            }
        }
    }

    fn request_in(&mut self, mailbox: u8, route: u8, number: u32, frame: Frame) -> Sent
        requires in_range { route < length (core_of self.old).routes }
        requires above { last_number (lists_of (core_of self.old) route).requested < number }
        requires limit { number ≤ greatest_number }
        requires lowest { IsLowestEmpty (core_of self.old) mailbox }
        ensures { Requests self.old route number frame result self.new }
    {
        self.core.keep_law();
        let _ = self.core.apply(Event::Claim { route, mailbox });
        match self.core.apply(Event::Request {
            route,
            mailbox,
            number,
            frame,
        }) {
            Ok(()) => Sent::Yes,
            Err(_) => {
                // only memory can be refused here
                let _ = self.core.apply(Event::Withdraw { route, mailbox });
                self.short = true;
                Sent::NotNow
            }
        }
    }

    /// Does nothing. Its contract says that the core law holds.
    pub(crate) fn keep_law(&self)
        ensures { Law (core_of self.now) }
    {
        self.core.keep_law();
    }

    pub(crate) fn abort_of(&mut self, route: u8, number: u32) -> AbortAnswer
        requires { route < length (core_of self.old).routes }
        ensures core { Aborts (core_of self.old) route number result (core_of self.new) }
        ensures short { short_of self.new ≡ short_of self.old }
    {
        self.core.keep_law();
        match self.core.of_number(route, number) {
            None => AbortAnswer::Gone,
            Some(waiting) => {
                if waiting.abort_asked {
                    return AbortAnswer::Asked;
                }
                let _ = self.core.apply(Event::Abort {
                    route,
                    mailbox: waiting.mailbox,
                });
                if waiting.status.is_transmitting() {
                    return AbortAnswer::Asked;
                }
                AbortAnswer::Ended
            }
        }
    }
}

/// What the gate is told of a request in this mailbox.
fn heard(sent: Sent, mailbox: u8) -> Heard
    ensures { result ≡ heard_of sent mailbox }
{
    match sent {
        Sent::Yes => Heard::In(mailbox),
        Sent::NotNow => Heard::Not,
    }
}

impl<R> TxBus<R> for PlainMail {
    ghost use Rattle.std.specs.Prelude.{◌≡◌};
    ghost use Rattle.bx_core.specs.PlainMail.{core_of, sending};
    ghost use Rattle.bx_core.specs.Stands.{BusStands, BusKeeps};
    ghost use Rattle.bx_core.specs.Stands.{bus_keeps-self, bus_keeps-on};

    ghost bus_after = { λ m past. BusStands (core_of m) past };

    // whoever drives this bus side says when it asked: of any calls that may have been made
    ghost bus_asked = { λ m calls. Unit };

    ghost transmitting = { λ m. sending (core_of m) };

    ghost bus_stays = { λ a b. BusKeeps a b };

    /// Schedules the request that is to be sent next, where none is scheduled. True where a request waits, nothing
    /// is on the bus, and the one that is scheduled was not asked to end.
    fn ready(&mut self, _rt: &R) -> bool
        ensures past { (past : BusPast) → BusStands (core_of self.old) past
            → BusStands (core_of self.new) past }
        ensures transmits { sending (core_of self.new) ≡ sending (core_of self.old) }
        ensures stays { BusKeeps self.old self.new }
        ensures core { core_of self.new ≡ readied (core_of self.old) }
        ensures ready { result ≡ is_ready (core_of self.new) }
        ensures serves { AnswersReady (core_of self.old) result }
    {
        self.core.keep_law();
        self.schedule_next()
    }

    /// Starts the request that is scheduled, and `None` only where none is that may start. By the order of
    /// requests it is the one that waits longest.
    fn start(&mut self, _rt: &R) -> Option<(u8, u32, Frame)>
        ensures past { (past : BusPast) → BusStands (core_of self.old) past
            → BusStands (core_of self.new) (after_start past result) }
        ensures undone { (past : BusPast) → BusStands (core_of self.old) past → IfSome result (λ x. IsUndone past x) }
        ensures unaborted { (past : RoutePast) → IfSome result (λ x. RouteStands (core_of self.old) x.0 past
            → Has past.aborted x.1 → ⊥) }
        ensures idle { IfSome result (λ x. sending (core_of self.old) ≡ None) }
        ensures transmits { IfSome result (λ x. sending (core_of self.new) ≡ Some x) }
        ensures none { IfNone result (sending (core_of self.new) ≡ sending (core_of self.old)) }
        ensures stays { BusKeeps self.old self.new }
        ensures core { Starts (core_of self.old) result (core_of self.new) }
        ensures oldest { (core_of self.old).txfp ≡ true → IfSome result (λ x. oldest (core_of self.old) ≡ Some x) }
    {
        self.core.keep_law();
        self.start_scheduled()
    }

    /// The frame that is transmitting was sent. The test for the condition is `is_transmitting`.
    fn complete(&mut self, _rt: &R)
        requires { IsSome (sending (core_of self.old)) }
        ensures past { (past : BusPast) → BusStands (core_of self.old) past
            → BusStands (core_of self.new) (after_complete past (sending (core_of self.old))) }
        ensures idle { sending (core_of self.new) ≡ None }
        ensures stays { BusKeeps self.old self.new }
        ensures core { Completes (core_of self.old) (core_of self.new) }
    {
        self.core.keep_law();
        self.complete_sent();
    }

    /// The transmission failed. `Some` just where its abort was asked. The test for the condition is
    /// `is_transmitting`.
    fn fail(&mut self, _rt: &R) -> Option<(u8, u32)>
        requires { IsSome (sending (core_of self.old)) }
        ensures past { (past : BusPast) → BusStands (core_of self.old) past
            → BusStands (core_of self.new) (after_fail past result) }
        ensures reaped { IfSome result (λ x. option_map label_of (sending (core_of self.old)) ≡ Some x) }
        ensures idle { sending (core_of self.new) ≡ None }
        ensures stays { BusKeeps self.old self.new }
        ensures core { Fails (core_of self.old) result (core_of self.new) }
    {
        self.core.keep_law();
        self.fail_sent()
    }

    ghost bus_stays_self = { bus_keeps-self };

    ghost bus_stays_on = { bus_keeps-on };
}
