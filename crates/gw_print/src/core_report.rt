//! The report on an event list.

ghost use Rattle.std.specs.Prelude.{◌≡◌, ◌<◌, ◌++◌, List, ℕ, IfOk, IfErr, OnOk, string_bytes, map, length};
ghost use Rattle.bx_core.specs.Lists.{Each};
ghost use Rattle.bx_core.specs.States.{opening_by, lists_of, waits_of};
ghost use Rattle.bx_core.specs.Steps.{InRoutes, InRange, after};
ghost use Rattle.bx_core.specs.Law.{run, left_by};
ghost use Rattle.gw_script.specs.EventLists.{list_view};
ghost use Rattle.gw_print.specs.CoreReports.{code_of, digit, AppendsWire, AppendsDone, AppendsDones};
ghost use Rattle.gw_print.specs.CoreReports.{AppendsRoute, AppendsRoutes, refused_line, refused_lines, IsReport};

use bx_core::{Core, Entry, Event, Refused};
use can_frame::{Frame, wire};
use gw_script::{EventList, push_frame};
use std::alloc::{AllocError, Global};

fn code_of(why: Refused) -> &'static str
    ensures { result.now ≡ code_of why }
{
    match why {
        Refused::NotEmpty => "C1",
        Refused::NotOwner => "C2",
        Refused::NotOldest => "C3",
        Refused::WrongState => "C4",
        Refused::NumberOrder => "C5",
        Refused::Memory => "C6",
    }
}

/// Applies an event, and adds a line where it is refused. Want of memory is no refusal.
fn apply_one(
    text: &mut String,
    core: &mut Core,
    place: usize,
    event: Event,
) -> Result<(), AllocError>
    requires { InRange core.old event }
    ensures text { OnOk result
        (string_bytes text.new ≡ string_bytes text.old ++ refused_line place (after core.old event)) }
    ensures core { OnOk result (core.new ≡ left_by core.old (after core.old event)) }
    ensures routes { length core.new.routes ≡ length core.old.routes }
{
    match core.apply(event) {
        Ok(()) => Ok(()),
        Err(Refused::Memory) => Err(AllocError),
        Err(why) => {
            let code = code_of(why);
            writeln!(text, "event {place} refused {code}")
        }
    }
}

/// Applies the events in turn.
fn apply_all(text: &mut String, core: &mut Core, events: &[Event]) -> Result<(), AllocError>
    requires { Each (InRoutes (length core.old.routes)) events.now }
    ensures text { OnOk result
        (string_bytes text.new ≡ string_bytes text.old ++ refused_lines core.old 0 events.now) }
    ensures core { OnOk result (core.new ≡ run core.old events.now) }
    ensures routes { length core.new.routes ≡ length core.old.routes }
{
    for (place, event) in events.iter().enumerate() {
        apply_one(text, core, place, *event)?;
    }
    Ok(())
}

/// Adds the levels of a frame's spelling, as digits.
fn push_wire(text: &mut String, frame: &Frame) -> Result<(), AllocError>
    ensures { OnOk result (AppendsWire (string_bytes text.old) (string_bytes text.new) frame.now) }
{
    let levels = wire(frame);
    push_levels(text, levels.as_slice())
}

fn push_levels(text: &mut String, levels: &[bool]) -> Result<(), AllocError>
    ensures { OnOk result (string_bytes text.new ≡ string_bytes text.old ++ map digit levels.now) }
{
    for level in levels {
        text.push_str(if *level { "1" } else { "0" })?;
    }
    Ok(())
}

/// Adds the line of a frame that was sent.
fn push_done(text: &mut String, route: u8, entry: &Entry) -> Result<(), AllocError>
    ensures { OnOk result (AppendsDone route (string_bytes text.old) (string_bytes text.new) entry.now) }
{
    let number = entry.number;
    write!(text, "done {route} {number} ")?;
    push_frame(text, &entry.frame)?;
    write!(text, " ")?;
    push_wire(text, &entry.frame)?;
    write!(text, "\n")
}

fn push_dones(text: &mut String, route: u8, done: &[Entry]) -> Result<(), AllocError>
    ensures { OnOk result (AppendsDones route (string_bytes text.old) (string_bytes text.new) done.now) }
{
    for entry in done {
        push_done(text, route, entry)?;
    }
    Ok(())
}

/// Adds what is reported of a route.
fn push_route(text: &mut String, core: &Core, route: u8) -> Result<(), AllocError>
    requires { route < length core.now.routes }
    ensures { OnOk result (AppendsRoute core.now route (string_bytes text.old) (string_bytes text.new)) }
{
    push_dones(text, route, core.done(route))?;
    let requested = core.requested(route).len();
    let done = core.done(route).len();
    let aborted = core.aborted(route).len();
    let reaped = core.reaped(route).len();
    let waiting = core.waiting(route).len();
    writeln!(
        text,
        "route {route} requested {requested} done {done} aborted {aborted} reaped {reaped} waiting {waiting}"
    )
}

fn push_routes(text: &mut String, core: &Core) -> Result<(), AllocError>
    ensures { OnOk result
        (AppendsRoutes core.now (length core.now.routes) (string_bytes text.old) (string_bytes text.new)) }
{
    for route in 0..core.routes() {
        push_route(text, core, route)?;
    }
    Ok(())
}

/// The report on an event list, unless memory runs out: a line for each refused event, then for each
/// route in order a line for each frame that was sent, with its spelling, and a line of counts.
pub fn report_on_events(alloc: Global, list: &EventList) -> Result<String, AllocError>
    requires some { 0 < list.now.routes }
    requires few { list.now.routes < 9 }
    requires in_range { Each (InRoutes list.now.routes) list.now.events.items }
    ensures { IfOk result (λ text. IsReport (list_view list.now) (string_bytes text)) }
{
    let mut text = String::new(alloc);
    let mut core = Core::with_txfp(alloc, list.routes, list.txfp);
    apply_all(&mut text, &mut core, list.events.as_slice())?;
    push_routes(&mut text, &core)?;
    Ok(text)
}
