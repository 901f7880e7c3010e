ghost use Rattle.gw_script.specs.NamedPlaces.{Names};

use bx_core::Entry;
use can_frame::{Frame, Id};
use can_node::{Counters, ErrorEvent, ErrorKind};
use can_segment::{Event, EventKind, Label, Levels, Record};
use gw_script::{
    Memory, PrintFault, Report, RouteReport, Script, names_stand, print, print_to, read,
};
use std::alloc::{AllocError, Global};
use std::io;
use std::io::Write;
use std::test::Fail;

/// A talker and a listener.
const TWO_TALKERS: &str =
    r#"{"version":1,"bits":64,"segments":[{"name":"a","talkers":[{"name":"t","on":0,"frames":[{"id":0,"ext":false,"data":[]}]},{"name":"l","on":0,"frames":[]}]}],"controllers":[],"routes":[]}"#;

/// One route between two segments, and three frames to go over it.
const THREE_FRAMES: &str =
    r#"{"version":1,"bits":300,"segments":[{"name":"a","talkers":[{"name":"t","on":0,"frames":[{"id":0,"ext":false,"data":[]},{"id":0,"ext":false,"data":[]},{"id":0,"ext":false,"data":[]}]}]},{"name":"b","talkers":[{"name":"l","on":0,"frames":[]}]}],"controllers":[{"name":"c","segment":"a","on":0,"banks":[{"bank":0,"scale":32,"mode":"mask","fifo":0,"active":true,"r1":0,"r2":0}]},{"name":"d","segment":"b","on":0,"banks":[]}],"routes":[{"name":"r","from":"c","fifo":0,"to":"d"}]}"#;

/// Two routes into `d` and, between them in the list, one into `c`.
const THREE_ROUTES: &str =
    r#"{"version":1,"bits":300,"segments":[{"name":"x","talkers":[{"name":"t","on":0,"frames":[]}]}],"controllers":[{"name":"c","segment":"x","on":0,"banks":[]},{"name":"d","segment":"x","on":0,"banks":[]}],"routes":[{"name":"p","from":"c","fifo":0,"to":"d"},{"name":"q","from":"d","fifo":0,"to":"c"},{"name":"s","from":"c","fifo":1,"to":"d"}]}"#;

fn event(bit: u64, node: u16, reported: EventKind) -> Event {
    Event::new(bit, node, reported)
}

fn started(bit: u64, node: u16, label: Option<Label>) -> Event {
    let frame = Frame::default();
    event(bit, node, EventKind::Started { frame, label })
}

fn took(bit: u64, node: u16, start: u64) -> Event {
    let frame = Frame::default();
    event(bit, node, EventKind::Took { start, frame })
}

fn entry(number: u32, frame: Frame) -> Entry {
    Entry { number, frame }
}

fn completed(bit: u64, node: u16, start: u64, label: Option<Label>) -> Event {
    let frame = Frame::default();
    event(
        bit,
        node,
        EventKind::Completed {
            start,
            frame,
            label,
        },
    )
}

/// The request of the first route into a controller.
fn of_first(number: u32) -> Option<Label> {
    Some(Label { route: 0, number })
}

/// A record of two nodes without an error.
fn plain_record(alloc: Global, events: Vec<Event>) -> Result<Record, AllocError> {
    Ok(Record {
        levels: Levels::new(alloc),
        events,
        counters: vec![in alloc; Counters::new(), Counters::new()]?,
    })
}

fn one_frame_report(alloc: Global) -> Result<Report, AllocError> {
    let events = vec![in alloc;
        started(11, 0, None),
        took(59, 1, 11),
        completed(60, 0, 11, None),
    ]?;
    Ok(Report {
        segments: vec![in alloc; plain_record(alloc, events)?]?,
        routes: Vec::new(alloc),
    })
}

const ONE_FRAME_TEXT: &str = "a 11 t started 000 data -\n\
     a 59 l took 11 000 data -\n\
     a 60 t completed 11 000 data -\n\
     a node t tec 0 rec 0 active\n\
     a node l tec 0 rec 0 active\n\
     a end 64\n";

/// Counters after so many errors of a sender, and one of a receiver.
fn counters_after(errors: u32) -> Counters {
    let mut counters = Counters::new();
    counters.apply(ErrorEvent::ReceiverError);
    for _ in 0..errors {
        counters.apply(ErrorEvent::SenderError);
    }
    counters
}

fn no_frames(alloc: Global) -> RouteReport {
    RouteReport {
        accepted: 0,
        overrun: 0,
        held: 0,
        released: Vec::new(alloc),
        aborted: Vec::new(alloc),
        completed: Vec::new(alloc),
        turns: 0,
    }
}

/// The events of a record with a line of each kind. `long`, `short` and `small` are three frames.
fn events_of_each_kind(
    alloc: Global,
    long: Frame,
    short: Frame,
    small: Frame,
) -> Result<Vec<Event>, AllocError> {
    let second = Label {
        route: 1,
        number: 7,
    };
    let events = vec![in alloc;
        event(
            11,
            2,
            EventKind::Started {
                frame: long,
                label: Some(second)
            }
        ),
        event(26, 2, EventKind::Lost { start: 11 }),
        event(26, 2, EventKind::Reaped(second)),
        event(40, 0, EventKind::Error(ErrorKind::Bit)),
        event(41, 0, EventKind::Error(ErrorKind::Stuff)),
        event(42, 0, EventKind::Error(ErrorKind::Form)),
        event(43, 0, EventKind::Error(ErrorKind::Ack)),
        event(44, 0, EventKind::Error(ErrorKind::Crc)),
        event(
            70,
            1,
            EventKind::Completed {
                start: 60,
                frame: short,
                label: of_first(16_777_215)
            }
        ),
        event(
            71,
            0,
            EventKind::Took {
                start: 60,
                frame: small
            }
        ),
        event(80, 1, EventKind::Off),
        event(18_446_744_073_709_551_615, 1, EventKind::Back),
    ]?;
    Ok(events)
}

fn each_kind_report(
    alloc: Global,
    long: Frame,
    short: Frame,
    small: Frame,
) -> Result<Report, AllocError> {
    let record = Record {
        levels: Levels::new(alloc),
        events: events_of_each_kind(alloc, long, short, small)?,
        counters: vec![in alloc; Counters::new(), counters_after(16), counters_after(32)]?,
    };
    let route = RouteReport {
        accepted: 18_446_744_073_709_551_615,
        overrun: 2,
        held: 5,
        released: vec![in alloc; long, short, small]?,
        aborted: vec![in alloc; 1, 2, 3, 4]?,
        completed: vec![in alloc; entry(1, long)]?,
        turns: 0,
    };
    Ok(Report {
        segments: vec![in alloc; record]?,
        routes: vec![in alloc; route, no_frames(alloc), no_frames(alloc)]?,
    })
}

const EACH_KIND_TEXT: &str = "x 11 d started 1abcdef0 remote 3 s 7\n\
     x 26 d lost 11\n\
     x 26 d reaped s 7\n\
     x 40 t error bit\n\
     x 41 t error stuff\n\
     x 42 t error form\n\
     x 43 t error ack\n\
     x 44 t error crc\n\
     x 70 c completed 60 7ff data 000aff q 16777215\n\
     x 71 t took 60 00000001 data 10\n\
     x 80 c off\n\
     x 18446744073709551615 c back\n\
     x node t tec 0 rec 0 active\n\
     x node c tec 128 rec 1 passive\n\
     x node d tec 256 rec 1 off\n\
     x end 300\n\
     route p accepted 18446744073709551615 overrun 2 released 3 completed 1 aborted 4 held 5\n\
     route q accepted 0 overrun 0 released 0 completed 0 aborted 0 held 0\n\
     route s accepted 0 overrun 0 released 0 completed 0 aborted 0 held 0\n";

fn is_printed(alloc: Global, script: &Script, report: &Report, text: &str) -> Result<bool, Memory>
    requires { Names script.now report.now }
{
    match print(alloc, script, report) {
        Ok(bytes) => Ok(bytes.as_slice() == text.as_bytes()),
        Err(why) => Err(why),
    }
}

#[test]
fn prints_each_kind_of_line(rt: HostRuntime) -> Result<(), Fail> {
    let alloc = rt.alloc();
    let script = read(alloc, THREE_ROUTES.as_bytes())?;
    let long = Frame::remote(Id::extended(0x1ABC_DEF0)?, 3)?;
    let short = Frame::with_bytes(Id::standard(0x7FF)?, [0, 10, 255].as_slice())?;
    let small = Frame::with_bytes(Id::extended(1)?, [16].as_slice())?;
    let report = each_kind_report(alloc, long, short, small)?;
    assert!(rt; names_stand(&script, &report));
    assert!(rt; is_printed(alloc, &script, &report, EACH_KIND_TEXT)?);
    let mut output = Vec::new(alloc);
    assert_eq!(rt; print_to(alloc, &script, &report, &mut output), Ok(()));
    assert_eq!(rt; output.as_slice(), EACH_KIND_TEXT.as_bytes());
    // of the text a front where the writer takes no more
    let mut full = Counted { bytes: 0, room: 20 };
    assert_eq!(rt;
        print_to(alloc, &script, &report, &mut full),
        Err(PrintFault::Write)
    );
    assert_eq!(rt; full.bytes, 20);
    Ok(())
}

/// A report on one segment and no route, with this event alone.
fn one_event_report(alloc: Global, reported: Event) -> Result<Report, AllocError> {
    let events = vec![in alloc; reported]?;
    Ok(Report {
        segments: vec![in alloc; plain_record(alloc, events)?]?,
        routes: Vec::new(alloc),
    })
}

#[test]
fn finds_what_does_not_stand_in_a_script(rt: HostRuntime) -> Result<(), Fail> {
    let alloc = rt.alloc();
    let small = read(alloc, TWO_TALKERS.as_bytes())?;
    let large = read(alloc, THREE_FRAMES.as_bytes())?;
    let plain = one_event_report(alloc, started(11, 1, None))?;
    assert!(rt; names_stand(&small, &plain));
    // the other script has two segments
    assert!(rt; !names_stand(&large, &plain));
    let of_a_talker = one_event_report(alloc, started(11, 1, of_first(1)))?;
    assert!(rt; !names_stand(&small, &of_a_talker));
    let of_a_third_node = one_event_report(alloc, started(11, 2, None))?;
    assert!(rt; !names_stand(&small, &of_a_third_node));
    Ok(())
}

#[test]
fn finds_nodes_and_routes_by_their_places(rt: HostRuntime) -> Result<(), Fail> {
    let alloc = rt.alloc();
    let script = read(alloc, THREE_ROUTES.as_bytes())?;
    assert_eq!(rt; script.node_count(0), 3);
    assert_eq!(rt; script.node_name(0, 0), Some("t"));
    assert_eq!(rt; script.node_name(0, 2), Some("d"));
    assert_eq!(rt; script.node_name(0, 3), None);
    assert_eq!(rt; script.controller_on(0, 1), Some(1));
    assert_eq!(rt; script.controller_on(0, 2), None);
    assert_eq!(rt; script.controller_at(0, 0), None);
    assert_eq!(rt; script.controller_at(0, 1), Some(0));
    assert_eq!(rt; script.route_at(1, 1), Some(2));
    assert_eq!(rt; script.route_at(1, 2), None);
    Ok(())
}

/// A writer that counts bytes, as many as there is room for.
#[derive(Drop)]
struct Counted {
    bytes: usize,
    room: usize,
}

impl Write for Counted {
    fn write(&mut self, buf: &[u8]) -> io::Result<usize> {
        let count = buf.len().min(self.room.saturating_sub(self.bytes));
        self.bytes = self.bytes.saturating_add(count);
        Ok(count)
    }

    fn flush(&mut self) -> io::Result<()> {
        Ok(())
    }
}

/// Accepts the text or the refusal of memory, and nothing else: for runs in which an allocation fails.
#[test]
fn prints_or_wants_memory(rt: HostRuntime) {
    let alloc = rt.alloc();
    let Ok(script) = read(alloc, TWO_TALKERS.as_bytes()) else {
        return;
    };
    let Ok(report) = one_frame_report(alloc) else {
        return;
    };
    assert!(rt; names_stand(&script, &report));
    match print(alloc, &script, &report) {
        Ok(text) => assert_eq!(rt; text.as_slice(), ONE_FRAME_TEXT.as_bytes()),
        Err(why) => assert_eq!(rt; why, Memory),
    }
    // nothing is written where memory is refused
    let mut written = Counted {
        bytes: 0,
        room: 1000,
    };
    match print_to(alloc, &script, &report, &mut written) {
        Ok(()) => assert_eq!(rt; written.bytes, ONE_FRAME_TEXT.len()),
        Err(why) => {
            assert_eq!(rt; why, PrintFault::Memory);
            assert_eq!(rt; written.bytes, 0);
        }
    }
}
