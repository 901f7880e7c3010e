//! Many bits at once of a frame that one node transmits, or of what all nodes wait for behind a frame.
//!
//! The shared receiver reads on with the transmitter's next levels in a loop of its own, up to the end of the stuffed
//! region, the ACK slot or the end of the frame, the next fault, the bits that are asked for and the room of the
//! record. The record gets the levels that it read at once, and each active node continues with all of them: one in
//! bus off, in a passive error flag, in a delimiter, the intermission or suspend transmission, or one that reads by
//! itself since it sampled another level than the others. Each node continues with all levels before the next node
//! does; the contract says that this equals the same bits simulated one after another, of all nodes at a time
//! (`AreUneventfulBits`).

ghost use Rattle.std.specs.Prelude.{◌≡◌, ◌≤◌, ◌<◌, ◌+◌, ◌-◌, ◌++◌, ◌≢◌, ℕ, true, Bool, List, Some, IfSome};
ghost use Rattle.std.specs.Prelude.{length, slice_get};
ghost use Rattle.can_segment.specs.DeferredState.{AllDeferred, AreRecessive, AreUneventfulBits};
ghost use Rattle.can_station.specs.DeferredNodes.{ActiveWithin, HasRoom, MayGoBy, OthersStayOut};
ghost use Rattle.can_station.specs.declared.member.Member.{Member};

use crate::deferred::Deferred;
use crate::idle_burst::idle_burst;
use crate::levels::Levels;
use arrayvec::ArrayVec;
use can_station::{Member, PlaceSet, all_stay_out, go_ahead_by, go_on_by};

/// How many bits are simulated at once, at most, where their levels are copied.
const BURST: usize = 120;

/// Returns this many recessive levels, at most `BURST`.
fn recessive<'a>(most: usize) -> &'a [bool]
    ensures few { length result.now ≤ most }
    ensures recessive { AreRecessive result.now }
{
    const RECESSIVE: &[bool] = &[true; BURST];
    &RECESSIVE[..most.min(RECESSIVE.len())]
}

/// Returns the first of these places whose node is active and transmits a frame; the number of nodes where there is
/// none.
fn first_sender(members: &[Member], active: PlaceSet) -> usize
    requires { ActiveWithin active members.now }
{
    let mut left = active;
    while let Some(place) = left.take_first() {
        let member = &members[place];
        if !member.is_deferred && member.station.node.sends_from().is_some() {
            return place;
        }
    }
    members.len()
}

/// Returns whether another active node of these than the one at this place transmits a frame, as during arbitration.
fn another_sends(members: &[Member], active: PlaceSet, place: usize) -> bool
    requires { ActiveWithin active members.now }
{
    let mut left = active;
    while let Some(other) = left.take_first() {
        let member = &members[other];
        if other != place && !member.is_deferred && member.station.node.sends_from().is_some() {
            return true;
        }
    }
    false
}

/// Returns the levels that the node at this place drives next in a frame that it transmits, or recessive ones where
/// there is no node: at most `most`.
fn next_levels<'a>(senders: &'a [Member], place: usize, bit: u64, most: usize) -> &'a [bool]
    ensures few { length result.now ≤ most }
    ensures may { 0 < length result.now → (sender : Member) → slice_get senders.now place ≡ Some sender
        → MayGoBy true bit result.now sender }
    ensures recessive { length senders.now ≤ place → AreRecessive result.now }
{
    match senders.get(place) {
        Some(sender) => sender.ahead(bit, most),
        None => recessive(most),
    }
}

/// Returns the next levels of the node at this place, as far as all other active nodes continue with them without
/// transmitting.
fn ahead_beside<'a>(
    senders: &'a [Member],
    place: usize,
    active: PlaceSet,
    others: &[Member],
    active_others: PlaceSet,
    bit: u64,
    most: usize,
) -> &'a [bool]
    requires senders_within { ActiveWithin active senders.now }
    requires others_within { ActiveWithin active_others others.now }
    ensures few { length result.now ≤ most }
    ensures may { 0 < length result.now → (sender : Member) → slice_get senders.now place ≡ Some sender
        → MayGoBy true bit result.now sender }
    ensures recessive { length senders.now ≤ place → AreRecessive result.now }
    ensures off { 0 < length result.now → OthersStayOut place bit result.now senders.now }
    ensures off_too { 0 < length result.now → OthersStayOut (length others.now) bit result.now others.now }
{
    let ahead = next_levels(senders, place, bit, most);
    let beside = all_stay_out(senders, bit, ahead, active, place);
    let beside = all_stay_out(others, bit, &ahead[..beside], active_others, others.len());
    &ahead[..beside]
}

/// Simulates the next bits that the node at this place transmits in the stuffed region of its frame or behind the ACK
/// slot, as far as the shared receiver follows them for all other nodes, which are deferred: at most `most`. Appends
/// their levels, for which there is room.
///
/// The node counts its levels and does not read them. So this needs no copy of them, nor room for one, which
/// `transmit_beside` clears at each call.
fn transmit_alone(
    levels: &mut Levels,
    senders: &mut [Member],
    place: usize,
    deferred: &mut Deferred,
    most: usize,
)
    requires there { place < length senders.old }
    requires others_deferred { (k : ℕ) (m : Member) → slice_get senders.old k ≡ Some m → k ≢ place
        → m.is_deferred ≡ true }
    requires sender_room { HasRoom (u64.MAX + 1 - most) (length levels.old.items) senders.old }
    requires level_room { length levels.old.items + most ≤ levels.old.capacity }
    ensures { (sent : List Bool) × (length sent ≤ most) × (levels.new.items ≡ levels.old.items ++ sent)
        × ((others : List Member) → AllDeferred others → AreUneventfulBits (length levels.old.items) sent deferred.old
        deferred.new senders.old senders.new others others) }
{
    let made = levels.len() as u64;
    let ahead = senders[place].ahead(made, most);
    let count = deferred.shared_receiver.reads_along_by(ahead);
    if count == 0 {
        return;
    }
    levels.extend_from_slice(&ahead[..count]);
    go_ahead_by(senders, place, count);
}

/// Simulates the next bits that the node at this place transmits in the stuffed region of its frame or behind the ACK
/// slot, or recessive bits where there is no node, as far as the shared receiver follows them for the deferred nodes
/// and all other active nodes continue without transmitting: at most `most`. Appends their levels, for which there is
/// room.
fn transmit_beside(
    levels: &mut Levels,
    senders: &mut [Member],
    place: usize,
    active: PlaceSet,
    others: &mut [Member],
    active_others: PlaceSet,
    deferred: &mut Deferred,
    most: usize,
)
    requires senders_within { ActiveWithin active senders.old }
    requires others_within { ActiveWithin active_others others.old }
    requires sender_room { HasRoom (u64.MAX + 1 - most) (length levels.old.items) senders.old }
    requires room { HasRoom (u64.MAX + 1 - most) (length levels.old.items) others.old }
    requires level_room { length levels.old.items + most ≤ levels.old.capacity }
    ensures { (sent : List Bool) × (length sent ≤ most) × (levels.new.items ≡ levels.old.items ++ sent)
        × AreUneventfulBits (length levels.old.items) sent deferred.old deferred.new senders.old senders.new others.old
        others.new }
{
    let made = levels.len() as u64;
    let most = most.min(BURST);
    let ahead = ahead_beside(senders, place, active, others, active_others, made, most);
    let count = deferred.shared_receiver.reads_along_by(ahead);
    if count == 0 {
        return;
    }
    levels.extend_from_slice(&ahead[..count]);
    // the levels ahead are the sender's own, which goes on by them
    let mut sent = ArrayVec::<bool, BURST>::new();
    let _ = sent.try_extend_from_slice(&ahead[..count]);
    go_on_by(senders, sent.as_slice(), active);
    go_on_by(others, sent.as_slice(), active_others);
}

/// Simulates bits as `transmit_beside` does: by `transmit_alone` where the node at this place is the only active one,
/// as it mostly is, and none where another one transmits too.
fn transmit_next(
    levels: &mut Levels,
    senders: &mut [Member],
    place: usize,
    active: PlaceSet,
    others: &mut [Member],
    active_others: PlaceSet,
    deferred: &mut Deferred,
    most: usize,
)
    requires senders_within { ActiveWithin active senders.old }
    requires others_within { ActiveWithin active_others others.old }
    requires sender_room { HasRoom (u64.MAX + 1 - most) (length levels.old.items) senders.old }
    requires room { HasRoom (u64.MAX + 1 - most) (length levels.old.items) others.old }
    requires level_room { length levels.old.items + most ≤ levels.old.capacity }
    ensures { (sent : List Bool) × (length sent ≤ most) × (levels.new.items ≡ levels.old.items ++ sent)
        × AreUneventfulBits (length levels.old.items) sent deferred.old deferred.new senders.old senders.new others.old
        others.new }
{
    if active.is_only(place) && active_others.is_empty() {
        transmit_alone(levels, senders, place, deferred, most);
        return;
    }
    // none of these would stay out
    if another_sends(senders, active, place) || another_sends(others, active_others, others.len()) {
        return;
    }
    transmit_beside(
        levels,
        senders,
        place,
        active,
        others,
        active_others,
        deferred,
        most,
    );
}

/// Simulates many bits at once: those that one node transmits in the stuffed region of its frame or behind the ACK
/// slot, while all others are deferred or continue without transmitting (in bus off, in a passive error flag, in what
/// they wait for behind a frame, or in the stuffed region of what they receive by themselves); or those with which all
/// nodes wait, also on an idle bus. At most `most`, and none where that is not so. Appends their levels, for which
/// there is room.
pub(crate) fn transmit_burst(
    levels: &mut Levels,
    talkers: &mut [Member],
    controllers: &mut [Member],
    deferred: &mut Deferred,
    most: usize,
)
    requires talkers_within { ActiveWithin deferred.old.talkers talkers.old }
    requires controllers_within { ActiveWithin deferred.old.controllers controllers.old }
    requires talker_room { HasRoom (u64.MAX + 1 - most) (length levels.old.items) talkers.old }
    requires room { HasRoom (u64.MAX + 1 - most) (length levels.old.items) controllers.old }
    requires level_room { length levels.old.items + most ≤ levels.old.capacity }
    ensures { (sent : List Bool) × (length sent ≤ most) × (levels.new.items ≡ levels.old.items ++ sent)
        × AreUneventfulBits (length levels.old.items) sent deferred.old deferred.new talkers.old talkers.new
        controllers.old controllers.new }
{
    if deferred.shared_receiver.wants_start() {
        idle_burst(levels, talkers, controllers, deferred, most);
        return;
    }
    if !deferred.shared_receiver.may_follow_by() {
        return;
    }
    let active = deferred.talkers;
    let active_too = deferred.controllers;
    let talker = first_sender(talkers, active);
    if talker < talkers.len() {
        transmit_next(
            levels,
            talkers,
            talker,
            active,
            controllers,
            active_too,
            deferred,
            most,
        );
        return;
    }
    // there it is, or nowhere
    let controller = first_sender(controllers, active_too);
    transmit_next(
        levels,
        controllers,
        controller,
        active_too,
        talkers,
        active,
        deferred,
        most,
    );
}
