//! The steps on the words of the clock table.
ghost use Rattle.std.specs.Prelude.{◌≡◌, ◌≢◌, ◌+◌, ◌<◌, ◌≤◌};
ghost use Rattle.gw_threads.specs.Clocks.{word_of, clock_of, pacer_of, looked_at, ticked, one_of, rest_of, watcher_of};
ghost use Rattle.gw_threads.specs.Clocks.{lender_of, with_stop, with_warning, MayTick, IsAtTable};

use crate::plays::{Deal, Lend, Look, Paced, Stop, Tick, Watch};
use crate::views::{Pace, Pacer};
use atomic_table::Table;
use std::alloc::Global;

/// A clock word for each segment, and a stop word behind them.
pub(crate) type ClockTable = Table<(), Pacer, Pace, Paced, Global>;

/// The word of a segment's clock. The seven words behind it lie idle, so that no two clocks share a line of a
/// processor's cache, which each tick takes from the others. The stop word is that of one segment more.
pub(crate) fn word_of(segment: usize) -> usize
    requires { segment ≤ 8 }
    ensures { result ≡ word_of segment }
{
    8 * segment
}

/// A seat at a clock table.
pub(crate) type Seat = atomic_table::Seat<(), Pacer>;

/// One look at the clock of a segment.
pub(crate) fn look(clocks: &ClockTable, seat: &mut Seat, segment: usize) -> u64
    requires table { IsAtTable clocks.now.shared.table_id clocks.now.shared.key seat.old.table_id seat.old.me }
    requires segment { segment < clocks.now.shared.key.segments }
    requires few { segment < 8 }
    ensures table { seat.new.table_id ≡ seat.old.table_id }
    ensures looked { seat.new.me ≡ clock_of (looked_at (pacer_of seat.old.me) segment result) }
{
    clocks.shared.load::<Look>(seat, word_of(segment))
}

/// The seat's own clock goes on by so many bits.
pub(crate) fn tick(clocks: &ClockTable, seat: &mut Seat, segment: usize, bits: u64)
    requires table { IsAtTable clocks.now.shared.table_id clocks.now.shared.key seat.old.table_id seat.old.me }
    requires segment { segment < clocks.now.shared.key.segments }
    requires few { segment < 8 }
    requires own { (pacer_of seat.old.me).first ≡ segment }
    requires pace { MayTick clocks.now.shared.key bits (pacer_of seat.old.me) }
    ensures table { seat.new.table_id ≡ seat.old.table_id }
    ensures ticked { seat.new.me ≡ clock_of (ticked bits (pacer_of seat.old.me)) }
{
    clocks
        .shared
        .fetch_add::<Tick>(seat, word_of(segment), bits);
}

/// Sets the stop word, which comes after the clocks.
pub(crate) fn stop(clocks: &ClockTable, seat: &mut Seat, behind: usize)
    requires table { IsAtTable clocks.now.shared.table_id clocks.now.shared.key seat.old.table_id seat.old.me }
    requires behind { clocks.now.shared.key.segments ≡ behind }
    requires few { behind ≤ 8 }
    ensures table { seat.new.table_id ≡ seat.old.table_id }
    ensures stopping { seat.new.me ≡ clock_of (with_stop (pacer_of seat.old.me)) }
{
    clocks.shared.store::<Stop>(seat, word_of(behind), 1);
}

/// One look at the stop word, which comes after the clocks.
pub(crate) fn watch(clocks: &ClockTable, seat: &mut Seat, behind: usize) -> u64
    requires table { IsAtTable clocks.now.shared.table_id clocks.now.shared.key seat.old.table_id seat.old.me }
    requires behind { clocks.now.shared.key.segments ≡ behind }
    requires few { behind ≤ 8 }
    ensures table { seat.new.table_id ≡ seat.old.table_id }
    ensures unset { result ≡ 0 → seat.new.me ≡ seat.old.me }
    ensures set { result ≢ 0 → seat.new.me ≡ clock_of (with_warning (pacer_of seat.old.me)) }
{
    clocks.shared.load::<Watch>(seat, word_of(behind))
}

/// Cuts off a seat with the first of this seat's clocks.
pub(crate) fn deal(clocks: &ClockTable, seat: &mut Seat) -> Seat
    requires table { IsAtTable clocks.now.shared.table_id clocks.now.shared.key seat.old.table_id seat.old.me }
    requires some { (pacer_of seat.old.me).first < (pacer_of seat.old.me).end }
    ensures table { seat.new.table_id ≡ seat.old.table_id }
    ensures theirs { result.table_id ≡ seat.old.table_id }
    ensures rest { seat.new.me ≡ clock_of (rest_of (pacer_of seat.old.me)) }
    ensures one { result.me ≡ clock_of (one_of (pacer_of seat.old.me)) }
{
    clocks.shared.split_seat::<Deal>(seat)
}

/// Cuts off a seat with no clock.
pub(crate) fn lend(clocks: &ClockTable, seat: &mut Seat) -> Seat
    requires table { IsAtTable clocks.now.shared.table_id clocks.now.shared.key seat.old.table_id seat.old.me }
    ensures table { seat.new.table_id ≡ seat.old.table_id }
    ensures theirs { result.table_id ≡ seat.old.table_id }
    ensures lender { seat.new.me ≡ clock_of (lender_of (pacer_of seat.old.me)) }
    ensures watcher { result.me ≡ clock_of (watcher_of (pacer_of seat.old.me)) }
{
    clocks.shared.split_seat::<Lend>(seat)
}
