//! Two nodes on one bus, whose level is the AND of what they drive.

use can_frame::{Frame, Id};
use can_node::{ErrorKind, ErrorState, Node, Outcome};
use std::alloc::AllocError;
use std::test::Fail;

/// What is told of a node at a bit.
#[derive(Clone, Copy, Debug, PartialEq, Eq)]
enum Told {
    Started,
    Took(u64),
    Completed,
    Lost,
    Error(ErrorKind),
    Off,
    Back,
}

/// A line of a report.
#[derive(Clone, Copy, Debug, PartialEq, Eq)]
struct Line {
    bit: u64,
    node: char,
    told: Told,
}

/// A node that sends one frame so many times, from its first bit on.
#[derive(Drop)]
struct Station {
    name: char,
    on: u64,
    node: Node,
    frame: Frame,
    left: u8,
}

impl Station {
    fn new(name: char, on: u64, frame: Frame, left: u8) -> Station {
        Station {
            name,
            on,
            node: Node::new(on),
            frame,
            left,
        }
    }

    fn start(&mut self, bit: u64, log: &mut Vec<Line>) -> Result<(), AllocError> {
        if bit < self.on || self.left == 0 {
            return Ok(());
        }
        if self.node.wants_start() {
            self.node.begin(self.frame);
            log.push(Line {
                bit,
                node: self.name,
                told: Told::Started,
            })?;
        }
        Ok(())
    }

    fn drive(&self, bit: u64) -> bool {
        bit < self.on || self.node.drive()
    }

    fn sample(&mut self, bit: u64, level: bool, log: &mut Vec<Line>) -> Result<(), AllocError> {
        if bit < self.on || self.node.bit() == u64::MAX {
            return Ok(());
        }
        let told = match self.node.sample(level) {
            Outcome::Nothing => return Ok(()),
            Outcome::Took { start, frame: _ } => Told::Took(start),
            Outcome::Completed => {
                self.left = self.left.saturating_sub(1);
                Told::Completed
            }
            Outcome::Lost => Told::Lost,
            Outcome::Errored(kind) => Told::Error(kind),
            Outcome::WentOff => Told::Off,
            Outcome::CameBack => Told::Back,
        };
        log.push(Line {
            bit,
            node: self.name,
            told,
        })?;
        Ok(())
    }
}

/// Faults of a bus: bits at which the first node's sample is inverted, and a bit at which the line is
/// dominant, whatever is driven.
#[derive(Drop)]
struct Faults<'a> {
    inverted: &'a [u64],
    dominant: Option<u64>,
}

const NO_FAULTS: Faults<'static> = Faults {
    inverted: &[],
    dominant: None,
};

/// The first `bits` bits of a bus.
fn run(
    log: &mut Vec<Line>,
    first: &mut Station,
    second: &mut Station,
    bits: u64,
    faults: &Faults<'_>,
) -> Result<(), AllocError> {
    for bit in 0..bits {
        first.start(bit, log)?;
        second.start(bit, log)?;
        let level = first.drive(bit) && second.drive(bit) && faults.dominant != Some(bit);
        first.sample(bit, level != faults.inverted.contains(&bit), log)?;
        second.sample(bit, level, log)?;
    }
    Ok(())
}

fn at(bit: u64, node: char, told: Told) -> Line {
    Line { bit, node, told }
}

/// The frame that these stations send: standard, data, identifier 0, no bytes.
fn frame() -> Frame {
    Frame::default()
}

/// A station that only listens.
fn shared_receiver(on: u64) -> Station {
    Station::new('l', on, frame(), 0)
}

#[test]
fn a_frame_is_sent_and_taken(rt: HostRuntime) -> Result<(), Fail> {
    let mut log = Vec::new(rt.alloc());
    let mut talker = Station::new('t', 0, frame(), 1);
    run(
        &mut log,
        &mut talker,
        &mut shared_receiver(0),
        64,
        &NO_FAULTS,
    )?;
    assert_eq!(rt;
        log.as_slice(),
        [
            at(11, 't', Told::Started),
            at(59, 'l', Told::Took(11)),
            at(60, 't', Told::Completed),
        ]
        .as_slice()
    );
    Ok(())
}

/// The attempts of a sender that nobody acknowledges: sixteen as error active, each 59 bits apart.
fn sixteen_attempts(log: &mut Vec<Line>) -> Result<(), AllocError> {
    for k in 0..16u64 {
        log.push(at(11 + 59 * k, 't', Told::Started))?;
        log.push(at(52 + 59 * k, 't', Told::Error(ErrorKind::Ack)))?;
    }
    Ok(())
}

#[test]
fn a_lone_sender_becomes_passive_and_never_goes_off(rt: HostRuntime) -> Result<(), Fail> {
    let mut log = Vec::new(rt.alloc());
    let mut talker = Station::new('t', 0, frame(), 1);
    let mut nobody = shared_receiver(2000);
    run(&mut log, &mut talker, &mut nobody, 938, &NO_FAULTS)?;
    assert_eq!(rt; talker.node.counters().tec(), 128);
    let mut log = Vec::new(rt.alloc());
    let mut talker = Station::new('t', 0, frame(), 1);
    run(&mut log, &mut talker, &mut nobody, 2000, &NO_FAULTS)?;
    let mut expected = Vec::new(rt.alloc());
    sixteen_attempts(&mut expected)?;
    for j in 0..16u64 {
        expected.push(at(963 + 67 * j, 't', Told::Started))?;
        if j < 15 {
            expected.push(at(1004 + 67 * j, 't', Told::Error(ErrorKind::Ack)))?;
        }
    }
    assert_eq!(rt; log.as_slice(), expected.as_slice());
    assert_eq!(rt; talker.node.counters().tec(), 128);
    assert_eq!(rt; talker.node.counters().state(), ErrorState::Passive);
    Ok(())
}
