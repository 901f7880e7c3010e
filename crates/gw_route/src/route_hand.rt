//! A route's hand.
ghost use Rattle.std.specs.Prelude.{◌≡◌, ℕ, ◌+◌, ◌<◌, ◌≤◌, ◌↔◌, Bool, List, [], ◌∷◌, ◌++◌, Option, Some, None};
ghost use Rattle.std.specs.Prelude.{Result, IfOk, OnOk, OnErr, IfSome, IfNone, IsErr, IsTrue, MatchOption, vec_len};
ghost use Rattle.std.specs.Prelude.{length, vec_capacity, slice_get, true, false};
ghost use Rattle.bx_core.specs.declared.answer.Sent.{Sent};
ghost use Rattle.bx_core.specs.declared.answer.AbortAnswer.{AbortAnswer};
ghost use Rattle.bx_core.specs.declared.answer.NumberTooLarge.{NumberTooLarge};
ghost use Rattle.bx_core.specs.Steps.{greatest_number};
ghost use Rattle.bx_core.specs.RouteTx.{RoutePast, no_route_past, after_request, after_abort};
ghost use Rattle.bx_rx.specs.RxOut.{IsReleased};
ghost use Rattle.gw_route.specs.Heard.{HearsTurn};
ghost use Rattle.gw_route.specs.Plans.{FromPlan};
ghost use Rattle.gw_route.specs.declared.route_abort.RouteAbort.{RouteAbort};
ghost use Rattle.gw_route.specs.RouteHand.{hand_value, new_hand, IsQueueSize, LogMatches, LogsReleased, IsLinked};
ghost use Rattle.gw_route.specs.RouteHand.{HasPast, IsTied, entry_of};
ghost use Rattle.gw_route.specs.Turn.{counted, next_turn, IsDueByCount, first_abort, noted, HasNext, HasNone, Filled};
ghost use Rattle.gw_route.specs.Turn.{TakesOne};
ghost use Rattle.gw_route.specs.Turn.{if_requested, requested_answer, logged, if_aborted, aborted_answer, Acted};
ghost use Rattle.gw_route.specs.Turn.{FillKeeps, TurnMade, TurnKeeps, WaitsForFrame, idled};

use crate::log::Log;
use crate::route_abort::RouteAbort;
use crate::turn_answer::TurnAnswer;
use arrayvec::ArrayVec;
use bx_core::{AbortAnswer, Entry, Gate, NumberTooLarge, RouteTx, Sent};
use bx_rx::{Memory, RxOut};
use can_frame::{Frame, Rewrite, rewritten};
use std::alloc::Global;
use std::collections::VecDeque;
use std::sync::Wait;

/// The hand of a route: it takes frames out of a receive FIFO and requests their transmission.
#[derive(Drop)]
pub struct RouteHand {
    /// Where the FIFO's frames come out.
    pub out: RxOut,
    /// The frame to be requested next, which was released and numbered; `None` also where it is still in `queued`.
    pub hand: Option<Entry>,
    /// The frames to be requested behind it, in order, which were released and numbered.
    pub queued: VecDeque<Entry>,
    /// How many frames `fill` takes out of the FIFO at most, 1 to 1,024, those in the hand included; `None` where
    /// each turn takes the next one itself.
    pub queue: Option<u32>,
    /// The number that was given out last, or 0.
    pub tickets: u32,
    /// How many turns were made. It stays at 1,000,000.
    pub turns: u32,
    /// The aborts still to do, in order.
    pub aborts: Vec<RouteAbort>,
    /// What was done.
    pub log: Log,
    /// The new identifiers under which frames are requested.
    pub rewrites: ArrayVec<Rewrite, 32>,
}

impl RouteHand {
    /// Returns a hand without a queue that made no turn. Takes no memory.
    pub fn new(
        alloc: Global,
        out: RxOut,
        aborts: Vec<RouteAbort>,
        rewrites: ArrayVec<Rewrite, 32>,
    ) -> RouteHand
        ensures made { hand_value result ≡ new_hand out None aborts.items rewrites.items }
        ensures linked { LogMatches (hand_value result) no_route_past }
    {
        RouteHand::with_queue(alloc, out, None, aborts, rewrites)
    }

    /// Returns a hand that made no turn, with a queue of this size, 1 to 1,024, or without one. Takes no memory.
    pub fn with_queue(
        alloc: Global,
        out: RxOut,
        queue: Option<u32>,
        aborts: Vec<RouteAbort>,
        rewrites: ArrayVec<Rewrite, 32>,
    ) -> RouteHand
        requires { IfSome queue IsQueueSize }
        ensures made { hand_value result ≡ new_hand out queue aborts.items rewrites.items }
        ensures linked { LogMatches (hand_value result) no_route_past }
    {
        RouteHand {
            out,
            hand: None,
            queued: VecDeque::new(alloc),
            queue,
            tickets: 0,
            turns: 0,
            aborts,
            log: Log {
                released: Vec::new(alloc),
                aborted: Vec::new(alloc),
            },
            rewrites,
        }
    }

    /// Takes frames out of the FIFO, numbers them and puts them behind those in the hand, until as many are there as the
    /// queue's size, or the FIFO is empty: under their new identifiers where the hand has some for them. The log has
    /// them as they left the FIFO. Without a queue it takes none. May wait while the other side of the FIFO is in the
    /// middle of an offer.
    ///
    /// `Memory` comes where the log or the queue couldn't grow, before the FIFO is asked for that frame.
    #[inline]
    pub fn fill<R: Wait>(&mut self, rt: &R) -> Result<(), Memory>
        requires linked { HasPast (hand_value self.old) }
        ensures filled { OnOk result (Filled (hand_value self.old) (hand_value self.new)) }
        ensures keeps { FillKeeps (hand_value self.old) (hand_value self.new) }
        ensures tied { IsTied self.old self.new }
    {
        match self.queue {
            Some(size) => self.fill_up(rt, size),
            None => Ok(()),
        }
    }

    // The same with a queue of this size.
    fn fill_up<R: Wait>(&mut self, rt: &R, size: u32) -> Result<(), Memory>
        requires linked { HasPast (hand_value self.old) }
        requires size { self.old.queue ≡ Some size }
        ensures filled { OnOk result (Filled (hand_value self.old) (hand_value self.new)) }
        ensures keeps { FillKeeps (hand_value self.old) (hand_value self.new) }
        ensures tied { IsTied self.old self.new }
    {
        while self.held() < size as usize {
            if !self.take_one(rt)? {
                return Ok(());
            }
        }
        Ok(())
    }

    /// One turn, which makes one call on `tx` at most. The first abort is made where it is due: the count of turns, this
    /// one included, has reached its `turn`, and its number was requested. Else the first frame in the hand is requested,
    /// or, where the hand is empty and has no queue, the next one of the FIFO, under its new identifier where the hand
    /// has one for it: the log has it as it left the FIFO. May wait while the other side of the FIFO is in the middle of
    /// an offer, or where a call on `tx` may.
    ///
    /// `Memory` comes before the FIFO or the mailboxes are touched, where the log couldn't grow: then no turn was made.
    pub fn turn<R: Wait, T: RouteTx<R>, G: Gate>(
        &mut self,
        rt: &R,
        tx: &mut T,
        gate: &mut G,
    ) -> Result<TurnAnswer, Memory>
        requires linked { IsLinked (T.route_after tx.old) (hand_value self.old) }
        ensures turned { IfOk result (TurnMade (T.route_after tx.old) (T.route_after tx.new)
            (hand_value self.old) (hand_value self.new)) }
        ensures keeps { IfOk result (TurnKeeps (hand_value self.old) (hand_value self.new)) }
        ensures counted { OnOk result (self.new.turns ≡ next_turn self.old.turns) }
        ensures plan { (planned : List RouteAbort) → FromPlan planned (hand_value self.old)
            → FromPlan planned (hand_value self.new) }
        ensures linked { IsLinked (T.route_after tx.new) (hand_value self.new) }
        ensures log { LogsReleased (hand_value self.old) → LogsReleased (hand_value self.new) }
        ensures tied { IsTied self.old self.new }
        ensures memory { OnErr result (hand_value self.new ≡ hand_value self.old) }
        ensures untouched { OnErr result (tx.new ≡ tx.old) }
        ensures unheard { OnErr result (gate.new ≡ gate.old) }
        ensures heard { IfOk result (λ answer. HearsTurn G.may_have_heard answer gate.old gate.new) }
        ensures stays { T.stays tx.old tx.new }
    {
        if self.log.released.reserve(1).is_err() {
            return Err(Memory);
        }
        if self.log.aborted.reserve(1).is_err() {
            return Err(Memory);
        }
        self.count();
        Ok(self.act(rt, tx, gate))
    }

    /// Whether nothing is in the hand, and no abort comes due whatever the count of turns is: the next one, if there is
    /// one, is of a number that wasn't given out. So `fill` does nothing and each turn is idle, as long as the FIFO is
    /// empty.
    pub fn waits_for_frame(&self) -> bool
        ensures yes { result ≡ true → WaitsForFrame (hand_value self.now) }
        ensures no { result ≡ false → WaitsForFrame (hand_value self.now) → ⊥ }
    {
        if self.held() > 0 {
            return false;
        }
        match self.aborts.as_slice().first() {
            Some(abort) => abort.number == 0 || self.tickets < abort.number,
            None => true,
        }
    }

    /// So many idle turns at once, at which the FIFO is empty: they are counted, up to 1,000,000 in all, and nothing
    /// else is done.
    pub fn idle(&mut self, more: u64)
        requires waits { WaitsForFrame (hand_value self.old) }
        ensures value { hand_value self.new ≡ idled more (hand_value self.old) }
        ensures tied { IsTied self.old self.new }
    {
        self.turns = u64::from(self.turns).saturating_add(more).min(1_000_000) as u32;
    }

    fn count(&mut self)
        ensures value { hand_value self.new ≡ counted (hand_value self.old) }
        ensures log { self.new.log ≡ self.old.log }
        ensures tied { IsTied self.old self.new }
    {
        if self.turns < 1_000_000 {
            self.turns += 1;
        }
    }

    // What a turn does once it is counted, and the log has room.
    fn act<R: Wait, T: RouteTx<R>, G: Gate>(
        &mut self,
        rt: &R,
        tx: &mut T,
        gate: &mut G,
    ) -> TurnAnswer
        requires released { vec_len self.old.log.released < vec_capacity self.old.log.released }
        requires aborted { vec_len self.old.log.aborted < vec_capacity self.old.log.aborted }
        requires linked { IsLinked (T.route_after tx.old) (hand_value self.old) }
        ensures turned { Acted (T.route_after tx.old) (T.route_after tx.new) (hand_value self.old)
            (hand_value self.new) result }
        ensures tied { IsTied self.old self.new }
        ensures heard { HearsTurn G.may_have_heard result gate.old gate.new }
        ensures stays { T.stays tx.old tx.new }
    {
        match self.due() {
            Some(abort) => self.abort_first(rt, tx, abort.number, gate),
            None => match self.next(rt) {
                Some(entry) => self.ask(rt, tx, entry, gate),
                None => TurnAnswer::Idle,
            },
        }
    }

    // The first abort, where it is due.
    fn due(&self) -> Option<RouteAbort>
        ensures some { IfSome result (λ abort. (first_abort (hand_value self.now) ≡ Some abort)
            × IsDueByCount (hand_value self.now) abort) }
        ensures none { IfNone result ((abort : RouteAbort) → first_abort (hand_value self.now) ≡ Some abort
            → IsDueByCount (hand_value self.now) abort → ⊥) }
    {
        match self.aborts.as_slice().first() {
            Some(abort) => {
                if self.is_due(*abort) {
                    return Some(*abort);
                }
                None
            }
            None => None,
        }
    }

    // Its turn is reached, and its number was given out and is not in the hand.
    fn is_due(&self, abort: RouteAbort) -> bool
        ensures { IsTrue result ↔ IsDueByCount (hand_value self.now) abort }
    {
        if abort.turn > self.turns {
            return false;
        }
        if abort.number == 0 {
            return false;
        }
        u64::from(abort.number) + self.held() as u64 <= u64::from(self.tickets)
    }

    /// Returns how many frames are in the hand.
    pub fn held(&self) -> usize
        ensures { result ≡ length (hand_value self.now).in_hand }
    {
        usize::from(self.hand.is_some()) + self.queued.len()
    }

    // The frame to request in this turn, if there is one. It is moved into `hand`.
    fn next<R: Wait>(&mut self, rt: &R) -> Option<Entry>
        requires tickets { self.old.tickets < u32.MAX }
        requires room { vec_len self.old.log.released < vec_capacity self.old.log.released }
        ensures next { MatchOption result (HasNone (hand_value self.old) (hand_value self.new))
            (λ entry. HasNext (hand_value self.old) (hand_value self.new) entry self.new.queued.items) }
        ensures hand { self.new.hand ≡ result }
        ensures tied { IsTied self.old self.new }
    {
        if self.hand.is_none() {
            self.hand = self.queued.pop_front();
        }
        if self.hand.is_none() && self.queue.is_none() {
            self.hand = match self.out.release(rt) {
                Some(received) => Some(self.number(received.frame)),
                None => None,
            };
        }
        self.hand
    }

    // Takes the next frame out of the FIFO, behind those in the hand. Returns whether there was one.
    fn take_one<R: Wait>(&mut self, rt: &R) -> Result<bool, Memory>
        requires tickets { self.old.tickets < u32.MAX }
        ensures taken { IfOk result (λ taken. TakesOne taken (hand_value self.old) (hand_value self.new)) }
        ensures memory { OnErr result (hand_value self.new ≡ hand_value self.old) }
        ensures tied { IsTied self.old self.new }
    {
        if self.log.released.reserve(1).is_err() || self.queued.reserve(1).is_err() {
            return Err(Memory);
        }
        let Some(received) = self.out.release(rt) else {
            return Ok(false);
        };
        let entry = self.number(received.frame);
        self.queued.push_back_reserved(entry);
        Ok(true)
    }

    // Gives a frame that was released the next number and its new identifier, and notes it in the log as it was.
    fn number(&mut self, frame: Frame) -> Entry
        requires tickets { self.old.tickets < u32.MAX }
        requires room { vec_len self.old.log.released < vec_capacity self.old.log.released }
        ensures value { hand_value self.new ≡ noted (hand_value self.old) frame }
        ensures entry { result ≡ entry_of (hand_value self.old) frame }
        ensures hand { self.new.hand ≡ self.old.hand }
        ensures queued { self.new.queued ≡ self.old.queued }
        ensures tied { IsTied self.old self.new }
    {
        self.tickets += 1;
        let _ = self.log.released.push(frame);
        Entry {
            number: self.tickets,
            frame: rewritten(self.rewrites.as_slice(), &frame),
        }
    }

    // Requests the first frame in the hand.
    fn ask<R: Wait, T: RouteTx<R>, G: Gate>(
        &mut self,
        rt: &R,
        tx: &mut T,
        entry: Entry,
        gate: &mut G,
    ) -> TurnAnswer
        requires above { T.last tx.old < entry.number }
        requires held { self.old.hand ≡ Some entry }
        ensures asked { (sent : Result Sent NumberTooLarge) × (result ≡ requested_answer sent)
            × (hand_value self.new ≡ if_requested sent (hand_value self.old))
            × (IsErr sent ↔ (greatest_number < entry.number))
            × ((past : RoutePast) → T.route_after tx.old past
            → T.route_after tx.new (after_request past entry.number entry.frame sent)) }
        ensures tied { IsTied self.old self.new }
        ensures heard { HearsTurn G.may_have_heard result gate.old gate.new }
        ensures stays { T.stays tx.old tx.new }
    {
        match tx.request(rt, entry.number, entry.frame, gate) {
            Ok(Sent::Yes) => {
                self.hand = None;
                TurnAnswer::Requested
            }
            Ok(Sent::NotNow) | Err(NumberTooLarge) => TurnAnswer::Waiting,
        }
    }

    // Makes the first abort, which is of this number.
    fn abort_first<R: Wait, T: RouteTx<R>, G: Gate>(
        &mut self,
        rt: &R,
        tx: &mut T,
        number: u32,
        gate: &mut G,
    ) -> TurnAnswer
        requires some { 0 < vec_len self.old.aborts }
        requires room { vec_len self.old.log.aborted < vec_capacity self.old.log.aborted }
        requires positive { 0 < number }
        requires known { number ≤ T.last tx.old }
        ensures aborted { (answer : AbortAnswer) × (result ≡ aborted_answer answer)
            × (hand_value self.new ≡ if_aborted answer number (hand_value self.old))
            × ((past : RoutePast) → T.route_after tx.old past
            → (asks : Bool) × T.route_after tx.new (after_abort past number answer asks)) }
        ensures tied { IsTied self.old self.new }
        ensures heard { HearsTurn G.may_have_heard result gate.old gate.new }
        ensures stays { T.stays tx.old tx.new }
    {
        match tx.abort(rt, number, gate) {
            AbortAnswer::Ended | AbortAnswer::Asked => {
                self.note(number);
                TurnAnswer::AbortDone
            }
            AbortAnswer::Gone => {
                let _ = self.aborts.remove(0);
                TurnAnswer::AbortDone
            }
            AbortAnswer::NotNow => TurnAnswer::Waiting,
        }
    }

    // The first abort is done, and its number comes into the log.
    fn note(&mut self, number: u32)
        requires some { 0 < vec_len self.old.aborts }
        requires room { vec_len self.old.log.aborted < vec_capacity self.old.log.aborted }
        ensures value { hand_value self.new ≡ logged (hand_value self.old) number }
        ensures tied { IsTied self.old self.new }
    {
        let _ = self.log.aborted.push(number);
        let _ = self.aborts.remove(0);
    }
}
