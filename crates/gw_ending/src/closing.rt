//! The end of a run: what is left of its routes and segments.

ghost use Rattle.std.specs.Prelude.{◌≡◌, ◌<◌, ◌+◌, ℕ, List, IfOk, OnOk, None, length, slice_get};
ghost use Rattle.can_frame.specs.Frames.{FrameValue};
ghost use Rattle.bx_core.specs.Stands.{entries_of};
ghost use Rattle.bx_core.specs.Ties.{left_of};
ghost use Rattle.can_segment.specs.Brought.{all_in, sent_in};
ghost use Rattle.gw_config.specs.SoundScripts.{IsSound};
ghost use Rattle.gw_config.specs.Nodes.{talkers_on};
ghost use Rattle.gw_route.specs.RouteHand.{hand_value, LogsReleased};
ghost use Rattle.bx_controller.specs.Intakes.{IntakeStands};
ghost use Rattle.gw_site.specs.Pairs.{Pairs};
ghost use Rattle.gw_opening.specs.Places.{IsAt, PortChanges};
ghost use Rattle.gw_opening.specs.Openings.{Takes};
ghost use Rattle.gw_opening.specs.Slots.{SetsSlot};
ghost use Rattle.gw_ending.specs.Ends.{IsEndOf};
ghost use Rattle.gw_ending.specs.Finals.{AreDoneSites, IsOver, IsRecordAt, EndsLane};
ghost use Rattle.gw_ending.specs.Finals.{WasOffered, WaitAtMost, HasTalkers, lines_at, reported_at};
ghost use Rattle.gw_ending.specs.Finals.{turns_made, turns_reported};
ghost use Rattle.gw_ending.specs.Ports.{Port as AnyClosed};
ghost use Rattle.gw_ending.specs.Reports.{IsRouteRun};

use crate::closed::ClosedSite;
use crate::route_end::report_of;
use crate::telling::{completed_of, waiting_of};
use bx_controller::Intake;
use bx_core::{Entry, Left};
use can_frame::Memory;
use can_segment::Record;
use gw_opening::{Lane, Place, push_one, take};
use gw_route::RouteHand;
use gw_script::{RouteReport, Script};
use gw_site::Site;
use std::alloc::{AllocError, Global};
use std::sync::Wait;

/// What the lines tell to be sent of a route by the controller at a place, in front of which there are so many talkers.
fn sent_at(
    alloc: Global,
    sites: &[ClosedSite],
    place: Place,
    talkers: usize,
    number: u8,
) -> Result<Vec<Entry>, AllocError>
    requires there { (port : AnyClosed) × IsAt sites.now place port }
    requires talkers { HasTalkers sites.now place talkers }
    requires few { talkers + place.port < 4294967296 }
    ensures { IfOk result (λ all. (port : AnyClosed) → (at : IsAt sites.now place port) → all.items
        ≡ entries_of number (all_in sent_in (reported_at at.site place.port))) }
{
    let node = (talkers + place.port) as u32;
    let record = sites[place.site].segment.record();
    completed_of(alloc, record.events.as_slice(), node, number)
}

/// What is left in the mailboxes at a place.
fn left_at(sites: &[ClosedSite], place: Place) -> &[Left]
    requires there { (port : AnyClosed) × IsAt sites.now place port }
    ensures { (port : AnyClosed) → IsAt sites.now place port → result.now ≡ port.mail.left.items }
{
    sites[place.site].ports[place.port].mail.left.as_slice()
}

/// Ends a route of this number into the controller at a place, in front of which there are so many talkers.
fn end_hand<R: Wait>(
    rt: &R,
    alloc: Global,
    sites: &[ClosedSite],
    hand: RouteHand,
    intake: Intake,
    target: Place,
    talkers: usize,
    number: u8,
) -> Result<RouteReport, Memory>
    requires log { LogsReleased (hand_value hand) }
    requires queue { intake.rxin.queue ≡ hand.out.queue }
    requires intake { (offered : List FrameValue) × IntakeStands intake offered }
    requires there { (port : AnyClosed) × IsAt sites.now target port }
    requires talkers { HasTalkers sites.now target talkers }
    requires few { talkers + target.port < 4294967296 }
    requires room { WaitAtMost 12 sites.now }
    ensures ends { IfOk result (λ r. (to : AnyClosed) → IsAt sites.now target to
        → IsEndOf r intake (hand_value hand) (left_of number to.mail.left.items)) }
    ensures completed { IfOk result (λ r. (to : AnyClosed) → (to_is : IsAt sites.now target to)
        → r.completed.items ≡ entries_of number (all_in sent_in (reported_at to_is.site target.port))) }
    ensures turns { IfOk result (λ r. r.turns ≡ (hand_value hand).turns) }
{
    let completed = sent_at(alloc, sites, target, talkers, number)?;
    let waiting = waiting_of(alloc, left_at(sites, target), number)?;
    report_of(rt, alloc, hand, intake, completed, waiting.as_slice())
}

/// Ends a route: its FIFO is taken out of the controller that it takes from.
fn end_lane<R: Wait>(
    rt: &R,
    alloc: Global,
    sites: &mut [ClosedSite],
    lane: Lane,
    talkers: usize,
) -> Result<RouteReport, Memory>
    requires takes { Takes sites.old lane }
    requires offered { WasOffered sites.old lane }
    requires log { LogsReleased (hand_value lane.hand) }
    requires there { (port : AnyClosed) × IsAt sites.old lane.target port }
    requires talkers { HasTalkers sites.old lane.target talkers }
    requires few { talkers + lane.target.port < 4294967296 }
    requires room { WaitAtMost 12 sites.old }
    ensures sets { PortChanges (SetsSlot lane.fifo None) sites.old sites.new lane.source }
    ensures ends { IfOk result (EndsLane sites.old lane) }
    ensures turns { IfOk result (λ r. r.turns ≡ lane.hand.turns) }
{
    let intake = take(sites, lane.source, lane.fifo);
    let Lane {
        hand,
        source: _,
        fifo: _,
        target,
        number,
    } = lane;
    end_hand(rt, alloc, sites, hand, intake, target, talkers, number)
}

/// How many talkers stand in front of the controllers of the segment at a place.
fn talkers_at(script: &Script, place: Place) -> usize
    requires { place.site < length script.now.segments }
    ensures { result ≡ length (talkers_on (slice_get script.now.segments place.site)) }
{
    script.segments()[place.site].talkers().len()
}

/// Ends all routes, in their order.
pub(crate) fn end_lanes<R: Wait>(
    rt: &R,
    alloc: Global,
    script: &Script,
    sites: &mut [ClosedSite],
    lanes: Vec<Lane>,
) -> Result<Vec<RouteReport>, Memory>
    requires sound { IsSound script.now }
    requires over { IsOver script.now sites.old lanes.items }
    requires room { WaitAtMost 12 sites.old }
    ensures sites { OnOk result (AreDoneSites script.now sites.new) }
    ensures lines { OnOk result (lines_at sites.new ≡ lines_at sites.old) }
    ensures routes { IfOk result (λ reports. (room : ℕ) → WaitAtMost room sites.old
        → Pairs (λ k route. IsRouteRun room script.now (lines_at sites.old) k route) script.now.routes reports.items) }
    ensures size { IfOk result (λ reports. length reports.items ≡ length script.now.routes) }
    ensures turns { IfOk result (λ reports. turns_reported reports.items ≡ turns_made lanes.items) }
{
    let mut reports = Vec::with_capacity(alloc, script.routes().len())?;
    for lane in lanes {
        let talkers = talkers_at(script, lane.target);
        let report = end_lane(rt, alloc, sites, lane, talkers)?;
        push_one(&mut reports, report)?;
    }
    Ok(reports)
}

/// The record of a segment, whose controllers are let go.
fn record_of(site: ClosedSite) -> Record
    ensures { IsRecordAt site result }
{
    let Site { segment, ports: _ } = site;
    segment.into_record()
}

/// The records of all segments, in their order.
pub(crate) fn records_of(alloc: Global, sites: Vec<ClosedSite>) -> Result<Vec<Record>, Memory>
    ensures { IfOk result (λ records. Pairs (λ i. IsRecordAt) sites.items records.items) }
{
    let mut records = Vec::with_capacity(alloc, sites.len())?;
    for site in sites {
        push_one(&mut records, record_of(site))?;
    }
    Ok(records)
}
