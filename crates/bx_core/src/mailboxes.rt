//! The core: the mailboxes' claims, the requests that wait in them, and each route's lists.
ghost use Rattle.std.specs.Prelude.{◌≡◌, ◌<◌, ◌≤◌, length, true, IsTrue, ◌↔◌, OnOk, OnErr, Err};
ghost use Rattle.std.specs.Prelude.{None, Some, IfSome, IfNone, IfOk, option_map, map, slice_get};
ghost use Rattle.std.specs.List.{slice_index_or};
ghost use Rattle.bx_core.specs.declared.waiting.Waiting.{Waiting};
ghost use Rattle.bx_core.specs.States.{State, opening, opening_by, claim_of, lists_of, at_mailbox, place_of};
ghost use Rattle.bx_core.specs.States.{waits_of, of_number, on_bus, in_turn, IsEmpty, IsLowestEmpty, NoneIsEmpty};
ghost use Rattle.bx_core.specs.Priority.{is_next, next};
ghost use Rattle.bx_core.specs.Steps.{last_number, Steps, IsRequest, InRange, Leads, after, is_claim_of, may_follow};
ghost use Rattle.bx_core.specs.Steps.{with_claim, with_waiting, with_request, without};
ghost use Rattle.bx_core.specs.End.{ended_lists};
ghost use Rattle.bx_core.specs.Room.{lists_view};
ghost use Rattle.bx_core.specs.Law.{Law, Reached, IsInPlace};
ghost use Rattle.bx_core.specs.Ties.{as_left};

use crate::end::End;
use crate::entry::Entry;
use crate::event::Event;
use crate::left::Left;
use crate::lists::Lists;
use crate::queue;
use crate::refused::Refused;
use crate::status::Status;
use crate::waiting::Waiting;
use arrayvec::ArrayVec;
use can_frame::Frame;
use std::alloc::{AllocError, Global};
use std::marker::Model;

/// The three transmit mailboxes of one controller, shared by up to eight routes
/// (RM0008, bxCAN, "Transmission handling"). What is sent next goes by the order of requests or by
/// identifier, as `txfp` says; that never changes.
#[derive(Drop)]
pub struct Core {
    claims: [Option<u8>; 3],
    queue: ArrayVec<Waiting, 3>,
    routes: [Lists; 8],
    count: u8,
    txfp: bool,
}

impl Model for Core {
    ghost use Rattle.bx_core.specs.States.{State};

    ghost Value = { State };

    ghost use Rattle.bx_core.specs.Mailboxes.{core_view, IsKept};

    ghost view = { core_view };

    ghost invariant = { IsKept };
}

impl Core {
    /// Three empty mailboxes, and 1 to 8 routes that requested nothing yet. The priority is the order
    /// of requests: TXFP is set (RM0008, bxCAN, "Transmit priority"). Takes no memory.
    pub fn new(alloc: Global, routes: u8) -> Core
        requires few { routes ≤ 8 }
        requires some { 1 ≤ routes }
        ensures { result ≡ opening routes }
    {
        Core::with_txfp(alloc, routes, true)
    }

    /// The same as `new`, with this priority. True is by the order of requests; false is by identifier:
    /// of the pending requests, that of the lowest `Frame::arbitration_key` is sent next, and of equal
    /// keys that in the lowest mailbox (RM0008, bxCAN, "Transmit priority").
    pub fn with_txfp(alloc: Global, routes: u8, txfp: bool) -> Core
        requires few { routes ≤ 8 }
        requires some { 1 ≤ routes }
        ensures { result ≡ opening_by txfp routes }
    {
        Core {
            claims: [None; 3],
            queue: ArrayVec::new(),
            routes: [
                Lists::new(alloc),
                Lists::new(alloc),
                Lists::new(alloc),
                Lists::new(alloc),
                Lists::new(alloc),
                Lists::new(alloc),
                Lists::new(alloc),
                Lists::new(alloc),
            ],
            count: routes,
            txfp,
        }
    }

    /// Takes one event, or says why not: of the refusals that hold, the first in the order that
    /// `Event` names them in. A refused event changes nothing.
    ///
    /// Only a request takes memory, for itself and for each way in which it may end. It answers
    /// `Memory` only where that growth was refused, and nothing else refuses it.
    /// The test for the condition is `is_in_range`.
    pub fn apply(&mut self, event: Event) -> Result<(), Refused>
        requires { InRange self.old event }
        ensures step { Steps (IsRequest event) self.old (after self.old event) result self.new }
        ensures refused { OnErr result (self.new ≡ self.old) }
        ensures memory { result ≡ Err Refused.Memory → IsRequest event }

        ensures law { Law self.new }
        ensures routes { length self.new.routes ≡ length self.old.routes }
        ensures priority { self.new.txfp ≡ self.old.txfp }
    {
        self.keep_law();
        let answer = self.take(event);
        self.keep_law();
        answer
    }

    /// Does nothing. Its contract says what holds of every core: events led to its state, and the
    /// core law holds.
    pub fn keep_law(&self)
        ensures reached { Reached self.now }
        ensures law { Law self.now }
    {
        let _ = &self.queue;
    }

    /// Whether an event names one of the three mailboxes and, where it names a route, one of the
    /// core's.
    pub fn is_in_range(&self, event: &Event) -> bool
        ensures { IsTrue result ↔ InRange self.now event.now }
    {
        match *event {
            Event::Claim { route, mailbox }
            | Event::Withdraw { route, mailbox }
            | Event::Abort { route, mailbox } => self.has_place(route, mailbox),
            Event::Request { route, mailbox, .. } => self.has_place(route, mailbox),
            Event::Schedule { mailbox }
            | Event::Start { mailbox }
            | Event::Complete { mailbox }
            | Event::Fail { mailbox }
            | Event::Reap { mailbox } => mailbox < 3,
        }
    }

    fn has_place(&self, route: u8, mailbox: u8) -> bool
        ensures { IsTrue result ↔ ((route < length self.now.routes) × (mailbox < 3)) }
    {
        route < self.routes() && mailbox < 3
    }

    /// How many routes there are, 1 to 8.
    pub fn routes(&self) -> u8
        ensures { result ≡ length self.now.routes }
    {
        self.count
    }

    /// All that a route requested, in order.
    pub fn requested(&self, route: u8) -> &[Entry]
        requires { route < length self.now.routes }
        ensures { result.now ≡ (lists_of self.now route).requested }
    {
        self.lists(route).requested.as_slice()
    }

    /// Those of a route's requests that were sent, in order.
    pub fn done(&self, route: u8) -> &[Entry]
        requires { route < length self.now.routes }
        ensures { result.now ≡ (lists_of self.now route).done }
    {
        self.lists(route).done.as_slice()
    }

    /// The numbers of a route's requests that were aborted while they were pending or scheduled, in
    /// the order of the aborts.
    pub fn aborted(&self, route: u8) -> &[u32]
        requires { route < length self.now.routes }
        ensures { result.now ≡ (lists_of self.now route).aborted }
    {
        self.lists(route).aborted.as_slice()
    }

    /// The numbers of a route's requests whose abort was asked while they were transmitting, and
    /// whose transmission then failed, in the order of their ends.
    pub fn reaped(&self, route: u8) -> &[u32]
        requires { route < length self.now.routes }
        ensures { result.now ≡ (lists_of self.now route).reaped }
    {
        self.lists(route).reaped.as_slice()
    }

    /// The numbers of a route's requests that wait in a mailbox, the oldest first. Of a route that
    /// isn't there: none.
    pub fn waiting(&self, route: u8) -> ArrayVec<u32, 3>
        ensures { result.items ≡ waits_of route self.now.queue }
    {
        queue::waits(self.queue.as_slice(), route)
    }

    /// The requests that wait, the oldest first, as closing leaves them: three at most. An error where memory was
    /// refused.
    pub fn left(&self, alloc: Global) -> Result<Vec<Left>, AllocError>
        ensures left { IfOk result (λ left. left.items ≡ map as_left self.now.queue) }
        ensures few { IfOk result (λ left. length left.items ≤ 3) }
    {
        queue::left(alloc, self.queue.as_slice())
    }

    /// The newest number that a route requested, or 0 where it requested nothing yet.
    pub fn last_number(&self, route: u8) -> u32
        requires { route < length self.now.routes }
        ensures { result ≡ last_number (lists_of self.now route).requested }
    {
        self.lists(route).last_number()
    }

    /// Whether the priority is the order of requests (TXFP set). Else it is by identifier.
    pub fn txfp(&self) -> bool
        ensures { result ≡ self.now.txfp }
    {
        self.txfp
    }

    /// The oldest request that waits. By order of requests, no other is scheduled or transmitting.
    pub fn first(&self) -> Option<Waiting>
        ensures value { result ≡ slice_get self.now.queue 0 }
        ensures in_place { IfSome result (IsInPlace (length self.now.routes)) }
    {
        self.keep_law();
        self.queue.as_slice().first().copied()
    }

    /// The request that is transmitting, if one is. No other is scheduled or transmitting.
    pub fn on_bus(&self) -> Option<Waiting>
        ensures value { result ≡ on_bus self.now }
        ensures in_place { IfSome result (IsInPlace (length self.now.routes)) }
    {
        self.keep_law();
        queue::on_bus(self.queue.as_slice())
    }

    /// The request that is scheduled, if one is. No other is scheduled or transmitting.
    pub fn in_turn(&self) -> Option<Waiting>
        ensures value { result ≡ in_turn self.now }
        ensures in_place { IfSome result (IsInPlace (length self.now.routes)) }
    {
        self.keep_law();
        queue::in_turn(self.queue.as_slice())
    }

    /// The request that a try to schedule takes: by order of requests the oldest, whatever its status;
    /// by identifier the least, where none is scheduled or transmitting.
    pub(crate) fn next(&self) -> Option<Waiting>
        ensures value { result ≡ next self.now }
        ensures in_place { IfSome result (IsInPlace (length self.now.routes)) }
    {
        self.keep_law();
        if self.txfp {
            self.first()
        } else {
            queue::least(self.queue.as_slice())
        }
    }

    /// The lowest mailbox that is neither claimed nor holds a request: 0, 1 or 2.
    pub(crate) fn lowest_empty(&self) -> Option<u8>
        ensures some { IfSome result (IsLowestEmpty self.now) }
        ensures none { IfNone result (NoneIsEmpty self.now) }
    {
        for mailbox in 0..3 {
            if self.is_empty(mailbox) {
                return Some(mailbox);
            }
        }
        None
    }

    fn is_empty(&self, mailbox: u8) -> bool
        requires { mailbox < 3 }
        ensures { IsTrue result ↔ IsEmpty self.now mailbox }
    {
        self.claim_at(mailbox).is_none() && self.find(mailbox).is_none()
    }

    /// The request of a route's number, where it waits in a mailbox.
    pub(crate) fn of_number(&self, route: u8, number: u32) -> Option<Waiting>
        ensures { result ≡ of_number route number self.now.queue }
    {
        queue::of_number(self.queue.as_slice(), route, number)
    }

    fn lists(&self, route: u8) -> &Lists
        requires { route < length self.now.routes }
        ensures { lists_view result.now ≡ lists_of self.now route }
    {
        &self.routes[usize::from(route)]
    }

    /// Whether the request at a place of the queue, a pending one, may be scheduled.
    pub(crate) fn is_next(&self, place: usize, waiting: &Waiting) -> bool
        ensures { result ≡ is_next self.now place waiting.now }
    {
        if self.txfp {
            place == 0
        } else {
            queue::goes_first(waiting, self.queue.as_slice())
        }
    }

    pub(crate) fn is_claimed_by(&self, mailbox: u8, route: u8) -> bool
        requires { mailbox < 3 }
        ensures { result ≡ is_claim_of (claim_of self.now mailbox) route }
    {
        match self.claim_at(mailbox) {
            Some(owner) => owner == route,
            None => false,
        }
    }

    pub(crate) fn may_follow(&self, route: u8, number: u32) -> bool
        requires { route < length self.now.routes }
        ensures { result ≡ may_follow self.now route number }
    {
        self.routes[usize::from(route)].last_number() < number && number <= 16_777_215
    }

    pub(crate) fn claim_at(&self, mailbox: u8) -> Option<u8>
        requires { mailbox < 3 }
        ensures { result ≡ claim_of self.now mailbox }
    {
        self.claims[usize::from(mailbox)]
    }

    pub(crate) fn find(&self, mailbox: u8) -> Option<(usize, Waiting)>
        ensures place { IfSome result (λ found. found.0 ≡ place_of mailbox self.now.queue) }
        ensures within { IfSome result (λ found. found.0 < length self.now.queue) }
        ensures waiting { option_map (λ found. found.1) result ≡ at_mailbox mailbox self.now.queue }
    {
        queue::find(self.queue.as_slice(), mailbox)
    }

    pub(crate) fn set_claim(&mut self, mailbox: u8, claim: Option<u8>)
        requires mailbox { mailbox < 3 }
        requires leads { Leads self.old (with_claim self.old mailbox claim) }
        ensures { self.new ≡ with_claim self.old mailbox claim }
    {
        self.claims[usize::from(mailbox)] = claim;
    }

    pub(crate) fn set_waiting(&mut self, place: usize, waiting: Waiting)
        requires place { place < length self.old.queue }
        requires route { (w : Waiting) → (slice_index_or self.old.queue place w).route ≡ waiting.route }
        requires leads { Leads self.old (with_waiting self.old place waiting) }
        ensures { self.new ≡ with_waiting self.old place waiting }
    {
        queue::set_waiting(&mut self.queue, place, waiting);
    }

    /// Puts a request in the place of its claim, with room for what it may become.
    pub(crate) fn add_request(
        &mut self,
        route: u8,
        mailbox: u8,
        number: u32,
        frame: Frame,
    ) -> Result<(), AllocError>
        requires in_range { route < length self.old.routes }
        requires in_mailboxes { mailbox < 3 }
        requires claimed { is_claim_of (claim_of self.old mailbox) route ≡ true }
        requires leads { Leads self.old (with_request self.old route mailbox number frame) }
        ensures ok { OnOk result (self.new ≡ with_request self.old route mailbox number frame) }
        ensures err { OnErr result (self.new ≡ self.old) }
    {
        let lists = &mut self.routes[usize::from(route)];
        lists.add_requested(Entry { number, frame })?;
        self.claims[usize::from(mailbox)] = None;
        self.queue.push(Waiting {
            route,
            number,
            frame,
            mailbox,
            status: Status::Pending,
            abort_asked: false,
        });
        Ok(())
    }

    /// Takes a request out of the queue, into one of its route's lists.
    pub(crate) fn end(&mut self, place: usize, waiting: Waiting, end: End)
        requires place { place < length self.old.queue }
        requires waiting { (w : Waiting) → slice_index_or self.old.queue place w ≡ waiting }
        requires leads { Leads self.old
            (without self.old place waiting.route (ended_lists (lists_of self.old waiting.route) waiting end)) }
        ensures { self.new ≡
            without self.old place waiting.route (ended_lists (lists_of self.old waiting.route) waiting end) }
    {
        self.queue.remove(place);
        self.routes[usize::from(waiting.route)].add_ended(&waiting, end);
    }
}
