//! A seat at the clock table of a run.
ghost use Rattle.std.specs.Prelude.{◌≡◌, ◌⊎◌, ◌↔◌, ◌+◌, ◌-◌, ◌/◌, ◌<◌, ◌≤◌, ◌^◌, IfOk, IfErr, OnOk, OnErr, IsTrue};
ghost use Rattle.std.specs.Prelude.{true, false};
ghost use Rattle.gw_threads.specs.Clocks.{first_pacer, one_of, rest_of, lender_of, watcher_of, ticked, with_stop, with_warning};
ghost use Rattle.gw_threads.specs.Clocks.{MayTick, MayGo, SameClocks, SeesAllDone};
ghost use Rattle.gw_threads.specs.declared.thread_fault.ThreadFault.TheVariants.{Memory};

use crate::clock_steps::{ClockTable, Seat, deal, lend, look, stop, tick, watch, word_of};
use crate::thread_fault::ThreadFault;
use crate::views::Pace;
use std::alloc::{AllocError, Global};
use std::marker::Model;
use std::sync::Arc;

/// A seat at the clock table of a run, which the threads of that run share: a clock for each segment, the number of
/// bits that it made, and a stop word. A thread's seat is dropped where the thread ends, and the table with the last
/// seat. Contracts see what the table is for, and what the seat knows.
#[derive(Drop)]
pub struct ClockSeat {
    clocks: Arc<ClockTable, Global>,
    seat: Seat,
    pace: Pace,
    // the first of the clocks that it ticks
    first: usize,
}

impl Model for ClockSeat {
    ghost use Rattle.std.specs.Prelude.{◌≡◌, ◌≤◌, length};
    ghost use Rattle.std.specs.Arc.{arc_value};
    ghost use Rattle.gw_threads.specs.Clocks.{ClockPlace, place_of, pacer_of, IsAtTable};

    ghost Value = { ClockPlace };

    ghost view = { λ s. place_of s.pace s.seat.me };

    ghost invariant = { λ s. IsAtTable (arc_value s.clocks).shared.table_id s.pace s.seat.table_id s.seat.me
        × ((arc_value s.clocks).shared.key ≡ s.pace) × (s.first ≡ (pacer_of s.seat.me).first)
        × ((pacer_of s.seat.me).end ≤ s.pace.segments) × (length (pacer_of s.seat.me).seen ≡ s.pace.segments)
        × (s.pace.segments ≤ 8) };
}

/// A clock table with all clocks at 0.
fn clocks_for(alloc: Global, pace: Pace) -> Result<ClockSeat, AllocError>
    requires few { pace.segments ≤ 8 }
    requires short { pace.bits < 2 ^ 32 }
    ensures pace { IfOk result (λ made. made.pace ≡ pace) }
    ensures view { IfOk result (λ made. made.view ≡ first_pacer pace) }
{
    let words = vec![in alloc; 0u64; word_of(pace.segments) + 1]?;
    let (table, seat) = ClockTable::of_words(alloc, words.as_slice(), &pace)?;
    let clocks = Arc::new(alloc, table)?;
    Ok(ClockSeat {
        clocks,
        seat,
        pace,
        first: 0,
    })
}

impl ClockSeat {
    /// The first seat of a clock table for this pace, with all clocks, each at 0.
    pub(crate) fn open(alloc: Global, pace: Pace) -> Result<ClockSeat, ThreadFault>
        requires few { pace.segments ≤ 8 }
        requires short { pace.bits < 2 ^ 32 }
        ensures pace { IfOk result (λ made. made.pace ≡ pace) }
        ensures view { IfOk result (λ made. made.view ≡ first_pacer pace) }
        ensures err { IfErr result (λ fault. fault ≡ Memory) }
    {
        match clocks_for(alloc, pace) {
            Ok(seat) => Ok(seat),
            Err(_) => Err(ThreadFault::Memory),
        }
    }

    /// A seat with the first of this seat's clocks.
    pub(crate) fn deal(&mut self) -> Result<ClockSeat, ThreadFault>
        requires { self.old.view.first < self.old.view.end }
        ensures pace { IfOk result (λ made. made.pace ≡ self.old.pace) }
        ensures one { IfOk result (λ made. made.view ≡ one_of self.old.view) }
        ensures same { self.new.pace ≡ self.old.pace }
        ensures rest { OnOk result (self.new.view ≡ rest_of self.old.view) }
        ensures err { IfErr result (λ fault. fault ≡ Memory) }
    {
        let Ok(clocks) = Arc::try_clone(&self.clocks) else {
            return Err(ThreadFault::Memory);
        };
        let seat = deal(&self.clocks, &mut self.seat);
        let first = self.first;
        self.first += 1;
        Ok(ClockSeat {
            clocks,
            seat,
            pace: self.pace,
            first,
        })
    }

    /// A seat with no clock.
    pub(crate) fn lend(&mut self) -> Result<ClockSeat, ThreadFault>
        ensures pace { IfOk result (λ made. made.pace ≡ self.old.pace) }
        ensures watcher { IfOk result (λ made. made.view ≡ watcher_of self.old.view) }
        ensures same { self.new.pace ≡ self.old.pace }
        ensures lender { OnOk result (self.new.view ≡ lender_of self.old.view) }
        ensures err { IfErr result (λ fault. fault ≡ Memory) }
    {
        let Ok(clocks) = Arc::try_clone(&self.clocks) else {
            return Err(ThreadFault::Memory);
        };
        let seat = lend(&self.clocks, &mut self.seat);
        Ok(ClockSeat {
            clocks,
            seat,
            pace: self.pace,
            first: 0,
        })
    }

    /// The seat's clock goes on by so many bits, in one step.
    pub(crate) fn tick(&mut self, bits: u64)
        requires { MayTick self.old.pace bits self.old.view }
        ensures same { self.new.pace ≡ self.old.pace }
        ensures ticked { self.new.view ≡ ticked bits self.old.view }
    {
        tick(&self.clocks, &mut self.seat, self.first, bits);
    }

    /// Sets the stop word: all threads of the run are to stop.
    pub(crate) fn stop(&mut self)
        ensures same { self.new.pace ≡ self.old.pace }
        ensures stopping { self.new.view ≡ with_stop self.old.view }
    {
        stop(&self.clocks, &mut self.seat, self.pace.segments);
    }

    /// Whether the stop word is set. One look at it.
    pub(crate) fn is_stopped(&mut self) -> bool
        ensures same { self.new.pace ≡ self.old.pace }
        ensures unset { result ≡ false → self.new ≡ self.old }
        ensures set { result ≡ true → self.new.view ≡ with_warning self.old.view }
    {
        if watch(&self.clocks, &mut self.seat, self.pace.segments) == 0 {
            return false;
        }
        true
    }

    /// How far the seat's clock may go by what it now sees of the others: within the slack of each of them, and to the
    /// run's bits at most. One look at each other clock.
    pub(crate) fn limit(&mut self) -> u64
        ensures same { SameClocks self.old self.new }
        ensures go { MayGo result self.new }
    {
        let mut limit = self.pace.bits;
        for segment in 0..self.pace.segments {
            if segment != self.first {
                let made = look(&self.clocks, &mut self.seat, segment);
                limit = limit.min(made.saturating_add(self.pace.slack));
            }
        }
        limit
    }

    /// Whether a clock that stands at `made` and may go to `limit` has half of the slack before it, or all bits that
    /// are left.
    pub(crate) fn is_far_enough(&self, made: u64, limit: u64) -> bool
        ensures { IsTrue result ↔ ((self.now.pace.bits ≤ limit) ⊎ (self.now.pace.slack / 2 < limit - made)) }
    {
        limit >= self.pace.bits || limit.saturating_sub(made) > self.pace.slack / 2
    }

    /// Whether all clocks were seen at the run's bits.
    pub(crate) fn all_done(&mut self) -> bool
        ensures same { SameClocks self.old self.new }
        ensures done { result ≡ true → SeesAllDone self.new }
    {
        for segment in 0..self.pace.segments {
            let made = look(&self.clocks, &mut self.seat, segment);
            if made < self.pace.bits {
                return false;
            }
        }
        true
    }
}
