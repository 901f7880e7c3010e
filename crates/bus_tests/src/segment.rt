//! Worked cases of a segment, and what they are made of.

mod due;
mod many_nodes;
mod one_fault;
mod requests;
mod shared;
mod talkers;
mod worked;

ghost use Rattle.std.specs.Prelude.{◌≡◌, None, IfOk, IfSome, length};
ghost use Rattle.bx_core.specs.PlainMail.{core_of, sending};
ghost use Rattle.can_segment.specs.Segments.{Fit};

use bx_core::{PlainMail, TxBus};
use can_frame::{Frame, Id};
use can_node::ErrorKind;
use can_segment::{
    DueFrame, Event, EventKind, Record, RxSink, SegFault, Segment, SegmentPlan, Talker,
};
use std::alloc::{AllocError, Global};
use std::test::Fail;

/// Mailboxes, and a sink that counts what it is offered.
#[derive(Drop)]
struct Port {
    mail: PlainMail,
    taken: u64,
}

impl<R> TxBus<R> for Port {
    ghost use Rattle.std.specs.Prelude.{◌≡◌};
    ghost use Rattle.std.proofs.Common.{refl, ◌∙◌};
    ghost use Rattle.bx_core.specs.PlainMail.{core_of, sending};
    ghost use Rattle.bx_core.specs.Stands.{BusStands, BusKeeps, bus_keeps-self, bus_keeps-on};

    ghost bus_after = { λ p past. BusStands (core_of p.mail) past };

    ghost bus_asked = { λ p calls. Unit };

    ghost transmitting = { λ p. sending (core_of p.mail) };

    ghost bus_stays = { λ a b. (a.taken ≡ b.taken) × BusKeeps a.mail b.mail };

    fn ready(&mut self, rt: &R) -> bool {
        self.mail.ready(rt)
    }

    fn start(&mut self, rt: &R) -> Option<(u8, u32, Frame)> {
        self.mail.start(rt)
    }

    fn complete(&mut self, rt: &R) {
        self.mail.complete(rt);
    }

    fn fail(&mut self, rt: &R) -> Option<(u8, u32)> {
        self.mail.fail(rt)
    }

    ghost bus_stays_self = { λ x. (refl, bus_keeps-self x.mail) };

    ghost bus_stays_on = { λ x y z p q. (p.0 ∙ q.0, bus_keeps-on x.mail y.mail z.mail p.1 q.1) };
}

impl<R> RxSink<R> for Port {
    ghost use Rattle.std.specs.Prelude.{◌≡◌, ◌≤◌, length};
    ghost use Rattle.std.proofs.Common.{arith};
    ghost use Rattle.bx_core.specs.Stands.{BusKeeps, bus_keeps-self, bus_keeps-on};

    ghost sink_after = { λ p past. p.taken ≤ length past };

    // the mailboxes stay as a bus side leaves them
    ghost port_stays = { λ a b. BusKeeps a.mail b.mail };

    fn offer(&mut self, _rt: &R, _frame: Frame) {
        self.taken = self.taken.saturating_add(1);
    }

    ghost sink_stays = { λ x y past e h. (let same = e.0 in Prim.omega (arith, same, h)) };

    ghost port_of_bus = { λ x y e. e.1 };

    ghost port_stays_on = { λ x y z p q. bus_keeps-on x.mail y.mail z.mail p q };
}

/// A standard data frame of identifier 0, with no bytes.
fn data_frame() -> Result<Frame, Fail> {
    Ok(Frame::with_bytes(Id::standard(0)?, &[])?)
}

/// A talker that sends this frame so many times.
fn talker(alloc: Global, on: u64, frame: Frame, times: u32) -> Result<Talker, AllocError> {
    let mut queue = Vec::new(alloc);
    for _ in 0..times {
        queue.push(DueFrame { due: 0, frame })?;
    }
    Ok(Talker { on, queue })
}

/// A plan without nodes or faults.
fn plan_of(alloc: Global, bits: u64) -> SegmentPlan {
    SegmentPlan {
        bits,
        talkers: Vec::new(alloc),
        controllers: Vec::new(alloc),
        node_faults: Vec::new(alloc),
        line_faults: Vec::new(alloc),
    }
}

/// One node that sends a data frame so many times, and one that listens.
fn sender_and_listener(alloc: Global, bits: u64, times: u32) -> Result<SegmentPlan, Fail> {
    let mut plan = plan_of(alloc, bits);
    let frame = data_frame()?;
    plan.talkers.push(talker(alloc, 0, frame, times)?)?;
    plan.talkers.push(talker(alloc, 0, frame, 0)?)?;
    Ok(plan)
}

/// Makes a bit. One that memory is refused to is made again: it must have changed nothing.
fn make_bit<R, P: RxSink<R>>(rt: &R, segment: &mut Segment, ports: &mut [P]) -> Result<(), SegFault>
    requires { Fit P.transmitting segment.old ports.old }
    ensures { Fit P.transmitting segment.new ports.new }
{
    match segment.bit(rt, ports) {
        Err(SegFault::Memory) => segment.bit(rt, ports),
        answer => answer,
    }
}

/// Makes so many bits.
fn make_bits<R, P: RxSink<R>>(
    rt: &R,
    segment: &mut Segment,
    ports: &mut [P],
    bits: u64,
) -> Result<(), SegFault>
    requires { Fit P.transmitting segment.old ports.old }
    ensures { Fit P.transmitting segment.new ports.new }
{
    for _ in 0..bits {
        make_bit(rt, segment, ports)?;
    }
    Ok(())
}

/// Makes bits at which no port is needed, up to so many in all.
fn make_uneventful_bits<R, P: RxSink<R>>(_rt: &R, segment: &mut Segment, ports: &[P], limit: u64)
    requires { Fit P.transmitting segment.old ports.now }
    ensures { Fit P.transmitting segment.new ports.now }
{
    segment.uneventful_bits(limit);
}

/// Makes bits of an idle bus, up to so many in all.
fn make_idle_bits<R, P: RxSink<R>>(_rt: &R, segment: &mut Segment, ports: &[P], limit: u64)
    requires { Fit P.transmitting segment.old ports.now }
    ensures { Fit P.transmitting segment.new ports.now }
{
    segment.idle_bits(limit);
}

/// Makes a bit, and behind it those that need no port, unless there are so many already: whether it made any.
fn make_more<R, P: RxSink<R>>(
    rt: &R,
    segment: &mut Segment,
    ports: &mut [P],
    bits: usize,
) -> Result<bool, SegFault>
    requires { Fit P.transmitting segment.old ports.old }
    ensures { Fit P.transmitting segment.new ports.new }
{
    if segment.record().levels.len() >= bits {
        return Ok(false);
    }
    make_bit(rt, segment, ports)?;
    make_uneventful_bits(rt, segment, ports, bits as u64);
    Ok(true)
}

/// Makes so many bits in all: how many of them were not uneventful bits after another.
fn make_all<R, P: RxSink<R>>(
    rt: &R,
    segment: &mut Segment,
    ports: &mut [P],
    bits: usize,
) -> Result<u64, SegFault>
    requires { Fit P.transmitting segment.old ports.old }
    ensures { Fit P.transmitting segment.new ports.new }
{
    let mut calls = 0u64;
    for _ in 0..bits {
        if make_more(rt, segment, ports, bits)? {
            calls = calls.saturating_add(1);
        }
    }
    Ok(calls)
}

/// Makes so many bits in all, those of an idle bus many at once: how many of them weren't such.
fn make_all_idle<R, P: RxSink<R>>(
    rt: &R,
    segment: &mut Segment,
    ports: &mut [P],
    bits: u64,
) -> Result<u64, SegFault>
    requires { Fit P.transmitting segment.old ports.old }
    ensures { Fit P.transmitting segment.new ports.new }
{
    let mut calls = 0u64;
    for _ in 0..bits {
        make_idle_bits(rt, segment, ports, bits);
        if segment.record().levels.len() as u64 >= bits {
            return Ok(calls);
        }
        make_bit(rt, segment, ports)?;
        calls = calls.saturating_add(1);
    }
    Ok(calls)
}

/// A segment of talkers, which has no port.
fn segment_of(alloc: Global, plan: SegmentPlan) -> Result<Segment, Fail>
    ensures { IfOk result (λ segment. length segment.sending ≡ 0) }
{
    if !plan.controllers.is_empty() {
        return Err(SegFault::Ended.into());
    }
    if plan.talkers.len() > 64 {
        return Err(SegFault::Ended.into());
    }
    match Segment::new(alloc, plan) {
        Ok(segment) => Ok(segment),
        Err(fault) => Err(fault.into()),
    }
}

/// What a segment of talkers records over all its bits.
fn record_of(alloc: Global, plan: SegmentPlan) -> Result<Record, Fail> {
    let bits = plan.bits;
    match segment_of(alloc, plan) {
        Ok(mut segment) => {
            let mut none: [Port; 0] = [];
            make_bits(&(), &mut segment, &mut none, bits)?;
            Ok(segment.into_record())
        }
        Err(fail) => Err(fail),
    }
}

fn started(bit: u64, node: u16, frame: Frame) -> Event {
    let label = None;
    Event::new(bit, node, EventKind::Started { frame, label })
}

fn took(bit: u64, node: u16, start: u64, frame: Frame) -> Event {
    Event::new(bit, node, EventKind::Took { start, frame })
}

fn completed(bit: u64, node: u16, start: u64, frame: Frame) -> Event {
    let label = None;
    Event::new(
        bit,
        node,
        EventKind::Completed {
            start,
            frame,
            label,
        },
    )
}

fn errored(bit: u64, node: u16, kind: ErrorKind) -> Event {
    Event::new(bit, node, EventKind::Error(kind))
}
