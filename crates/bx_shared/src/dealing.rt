//! How the seats are made.
ghost use Rattle.std.specs.Prelude.{◌≡◌, ◌-◌, ◌<◌, ◌≤◌, IfOk, length};
ghost use Rattle.bx_shared.specs.Steps.{seat_of, bus_seat, opening, opening_bus, first_words};
ghost use Rattle.bx_shared.specs.Seats.{IsAt, IsNewBus, AreDealt, openings};

use crate::bus_seat::BusSeat;
use crate::plays::Cut;
use crate::route_seat::RouteSeat;
use crate::route_steps::{Seat, Words};
use crate::tally::Tally;
use std::alloc::{AllocError, Global};
use std::sync::Arc;

/// The words as they begin: where the priority is by identifier, bit 27 says that requests are counted.
fn first_words(txfp: bool) -> [u64; 7]
    ensures { result ≡ first_words txfp }
{
    let control = if txfp { 0 } else { 1 << 27 };
    [control, 0, 0, 0, 0, 0, 0]
}

/// Cuts the next route's place off the bus's seat, where places of so many routes are left.
fn cut(words: &Words, seat: &mut Seat, left: u8) -> Seat
    requires table { IsAt words.now.shared.table_id seat.old.table_id }
    requires some { 0 < left }
    requires seat { seat.old.me ≡ bus_seat (opening_bus words.now.shared.key) (openings left) }
    ensures table { seat.new.table_id ≡ seat.old.table_id }
    ensures theirs { result.table_id ≡ seat.old.table_id }
    ensures rest { seat.new.me ≡ bus_seat (opening_bus words.now.shared.key) (openings (left - 1)) }
    ensures one { result.me ≡ seat_of (opening (8 - left)) }
{
    words.shared.split_seat::<Cut>(seat)
}

/// The seats of new words: the first seat's places are divided.
pub(crate) fn deal(
    alloc: Global,
    routes: u8,
    txfp: bool,
) -> Result<(BusSeat, Vec<RouteSeat>), AllocError>
    requires { routes ≤ 8 }
    ensures bus { IfOk result (λ made. IsNewBus txfp routes made.0) }
    ensures size { IfOk result (λ made. length made.1.items ≡ routes) }
    ensures seats { IfOk result (λ made. AreDealt made.0.table made.1.items) }
{
    let (table, mut seat) = Words::of_words(alloc, &first_words(txfp), &txfp)?;
    let words = Arc::new(alloc, table)?;
    let mut seats = Vec::with_capacity(alloc, usize::from(routes))?;
    for route in 0..routes {
        let theirs = Arc::try_clone(&words)?;
        let own = cut(&words, &mut seat, 8 - route);
        seats.push(RouteSeat {
            words: theirs,
            seat: own,
            route,
            last: 0,
            tops: [0; 3],
            requested: 0,
            aborted: 0,
        })?;
    }
    let bus = BusSeat {
        words,
        seat,
        mailbox: 0,
        sends: None,
        tally: Tally::new(),
    };
    Ok((bus, seats))
}
