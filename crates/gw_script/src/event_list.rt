//! An event list: its JSON text, and the events in it.

ghost use Rattle.std.specs.Prelude.{◌≡◌, ◌≤◌, ◌<◌, codes, length, IfOk, IfErr, vec_len};
ghost use Rattle.serde_json.specs.View.{view};
ghost use Rattle.bx_core.specs.Lists.{Each};
ghost use Rattle.bx_core.specs.Steps.{InRoutes};
ghost use Rattle.gw_fields.specs.Faults.{Reads, ReadsUnlessMemory, UnlessMemory};
ghost use Rattle.gw_script.specs.EventLists.{list_view, name_of, mailbox_of, route_of, claim_in};
ghost use Rattle.gw_script.specs.EventLists.{request_in, withdraw_in, abort_in, named_event, event_list_of};
ghost use Rattle.gw_fields.specs.Documents.{IsTextOf, FirstFault};

use bx_core::Event;
use gw_fields::{
    ReadsElement, ScriptFault, field, frame_of, list, object_of, optional_truth, read_document,
    read_each, text, whole,
};
use serde_json::Value;
use std::alloc::Global;

/// The greatest number of events in a list.
const MOST_EVENTS: usize = 100_000;

/// Mailbox events in order, over this many routes (1 to 8), of mailboxes with this priority.
#[derive(Drop)]
pub struct EventList {
    pub routes: u8,
    /// Whether requests are sent in their order (TXFP set), and not by identifier.
    pub txfp: bool,
    pub events: Vec<Event>,
}

/// Which event an element of the list is.
#[derive(Clone, Copy, PartialEq, Eq)]
enum EventName {
    Claim,
    Request,
    Withdraw,
    Schedule,
    Start,
    Complete,
    Fail,
    Abort,
    Reap,
}

fn name_of(word: &str) -> Result<EventName, ScriptFault>
    ensures { Reads (λ name. name) result (name_of word.now) }
{
    match word {
        "claim" => Ok(EventName::Claim),
        "request" => Ok(EventName::Request),
        "withdraw" => Ok(EventName::Withdraw),
        "schedule" => Ok(EventName::Schedule),
        "start" => Ok(EventName::Start),
        "complete" => Ok(EventName::Complete),
        "fail" => Ok(EventName::Fail),
        "abort" => Ok(EventName::Abort),
        "reap" => Ok(EventName::Reap),
        _ => Err(ScriptFault::Range("event")),
    }
}

#[tactic(auto, unfolding(crate::specs::EventLists::mailbox_of))]
fn mailbox_of(from: &Value) -> Result<u8, ScriptFault>
    ensures value { Reads (λ n. n) result (mailbox_of (view from.now)) }
    ensures range { IfOk result (λ n. n < 3) }
{
    let mailbox = whole(from, "mailbox", 0, 2)?;
    Ok(mailbox as u8)
}

#[tactic(auto, unfolding(crate::specs::EventLists::route_of))]
fn route_of(from: &Value, routes: u8) -> Result<u8, ScriptFault>
    requires { 1 ≤ routes }
    ensures value { Reads (λ n. n) result (route_of routes (view from.now)) }
    ensures range { IfOk result (λ n. n < routes) }
{
    let route = whole(from, "route", 0, u64::from(routes - 1))?;
    Ok(route as u8)
}

#[tactic(auto, unfolding(crate::specs::EventLists::claim_in))]
fn claim_in(from: &Value, routes: u8) -> Result<Event, ScriptFault>
    requires { 1 ≤ routes }
    ensures value { Reads (λ e. e) result (claim_in routes (view from.now)) }
    ensures range { IfOk result (InRoutes routes) }
{
    let route = route_of(from, routes)?;
    let mailbox = mailbox_of(from)?;
    Ok(Event::Claim { route, mailbox })
}

#[tactic(auto, unfolding(crate::specs::EventLists::request_in))]
fn request_in(from: &Value, routes: u8) -> Result<Event, ScriptFault>
    requires { 1 ≤ routes }
    ensures value { Reads (λ e. e) result (request_in routes (view from.now)) }
    ensures range { IfOk result (InRoutes routes) }
{
    let route = route_of(from, routes)?;
    let mailbox = mailbox_of(from)?;
    let number = whole(from, "number", 1, 4_294_967_295)?;
    let object = object_of(field(from, "frame")?, "frame")?;
    match frame_of(object) {
        Ok(frame) => Ok(Event::Request {
            route,
            mailbox,
            number: number as u32,
            frame,
        }),
        Err(fault) => Err(fault),
    }
}

#[tactic(auto, unfolding(crate::specs::EventLists::withdraw_in))]
fn withdraw_in(from: &Value, routes: u8) -> Result<Event, ScriptFault>
    requires { 1 ≤ routes }
    ensures value { Reads (λ e. e) result (withdraw_in routes (view from.now)) }
    ensures range { IfOk result (InRoutes routes) }
{
    let route = route_of(from, routes)?;
    let mailbox = mailbox_of(from)?;
    Ok(Event::Withdraw { route, mailbox })
}

#[tactic(auto, unfolding(crate::specs::EventLists::abort_in))]
fn abort_in(from: &Value, routes: u8) -> Result<Event, ScriptFault>
    requires { 1 ≤ routes }
    ensures value { Reads (λ e. e) result (abort_in routes (view from.now)) }
    ensures range { IfOk result (InRoutes routes) }
{
    let route = route_of(from, routes)?;
    let mailbox = mailbox_of(from)?;
    Ok(Event::Abort { route, mailbox })
}

/// The fields that an event of this name has.
#[tactic(auto, unfolding(crate::specs::EventLists::bus_event_in))]
fn named_event(from: &Value, routes: u8, name: EventName) -> Result<Event, ScriptFault>
    requires { 1 ≤ routes }
    ensures value { Reads (λ e. e) result (named_event routes (view from.now) name) }
    ensures range { IfOk result (InRoutes routes) }
{
    match name {
        EventName::Claim => claim_in(from, routes),
        EventName::Request => request_in(from, routes),
        EventName::Withdraw => withdraw_in(from, routes),
        EventName::Abort => abort_in(from, routes),
        EventName::Schedule => Ok(Event::Schedule {
            mailbox: mailbox_of(from)?,
        }),
        EventName::Start => Ok(Event::Start {
            mailbox: mailbox_of(from)?,
        }),
        EventName::Complete => Ok(Event::Complete {
            mailbox: mailbox_of(from)?,
        }),
        EventName::Fail => Ok(Event::Fail {
            mailbox: mailbox_of(from)?,
        }),
        EventName::Reap => Ok(Event::Reap {
            mailbox: mailbox_of(from)?,
        }),
    }
}

/// Reads the events over this many routes.
#[derive(Drop)]
struct EventReader {
    routes: u8,
    ghost some: { 1 ≤ routes },
}

impl ReadsElement for EventReader {
    ghost use Rattle.bx_core.specs.Steps.{InRoutes};
    ghost use Rattle.gw_script.specs.EventLists.{event_of};

    type Element = Event;

    ghost reading = { λ s front. event_of s.routes };

    ghost keeps = { λ s. InRoutes s.routes };

    #[tactic(auto, unfolding(crate::specs::EventLists::event_of))]
    fn read(&self, _alloc: Global, value: &Value, _front: &[Event]) -> Result<Event, ScriptFault> {
        let from = object_of(value, "events")?;
        let word = text(from, "event")?;
        let name = name_of(word)?;
        named_event(from, self.routes, name)
    }
}

/// The whole list, up to its first fault.
#[tactic(auto, unfolding(crate::specs::EventLists::event_list_of), using(gw_config::proofs::Lists::each_from_all))]
fn event_list_of(alloc: Global, value: &Value) -> Result<EventList, ScriptFault>
    ensures value { ReadsUnlessMemory list_view result (event_list_of (view value.now)) }
    ensures routes { IfOk result (λ l. (1 ≤ l.routes) × (l.routes ≤ 8)) }
    ensures range { IfOk result (λ l. Each (InRoutes l.routes) l.events.items) }
{
    let from = object_of(value, "script")?;
    let routes = whole(from, "routes", 1, 8)? as u8;
    let txfp = optional_truth(from, "txfp", true)?;
    let items = list(from, "events", MOST_EVENTS)?;
    let events = read_each(alloc, items, &EventReader { routes })?;
    Ok(EventList {
        routes,
        txfp,
        events,
    })
}

/// Reads an event list of at most `LIMIT` bytes, or tells its first fault.
pub fn read_core(alloc: Global, bytes: &[u8]) -> Result<EventList, ScriptFault>
    ensures ok { IfOk result (λ l. IsTextOf event_list_of bytes.now (list_view l)) }
    ensures err { IfErr result (λ e. UnlessMemory e (FirstFault event_list_of bytes.now)) }
    ensures routes { IfOk result (λ l. (1 ≤ l.routes) × (l.routes ≤ 8)) }
    ensures range { IfOk result (λ l. Each (InRoutes l.routes) l.events.items) }
{
    let value = read_document(alloc, bytes)?;
    event_list_of(alloc, &value)
}
