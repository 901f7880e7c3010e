//! Worked runs of a gateway with one route: late turns, aborts, both priorities, new identifiers, and early ends.

use crate::runs::{THREE_FRAMES, is_reported};
use crate::worked::{Change, Worked, are_reported};
use std::test::Fail;

/// The script of three frames over a route, changed.
const OF_THREE_FRAMES: &[Worked] = &[
    // five frames, and one turn, after all bits: two are overrun, one is in a mailbox
    Worked {
        words: &["bxgate", "run", "--turn", "400"],
        changes: &[
            Change {
                old: r#""bits":300"#,
                new: r#""bits":400"#,
            },
            Change {
                old: r#""data":[]},{"id":0,"ext":false,"data":[]},{"id":0,"ext":false,"data":[]}]"#,
                new: r#""data":[]},{"id":0,"ext":false,"data":[]},{"id":0,"ext":false,"data":[]},{"id":0,"ext":false,"data":[]},{"id":0,"ext":false,"data":[]}]"#,
            },
        ],
        report: "a 11 t started 000 data -\n\
                 a 59 c took 11 000 data -\n\
                 a 60 t completed 11 000 data -\n\
                 a 64 t started 000 data -\n\
                 a 112 c took 64 000 data -\n\
                 a 113 t completed 64 000 data -\n\
                 a 117 t started 000 data -\n\
                 a 165 c took 117 000 data -\n\
                 a 166 t completed 117 000 data -\n\
                 a 170 t started 000 data -\n\
                 a 218 c took 170 000 data -\n\
                 a 219 t completed 170 000 data -\n\
                 a 223 t started 000 data -\n\
                 a 271 c took 223 000 data -\n\
                 a 272 t completed 223 000 data -\n\
                 a node t tec 0 rec 0 active\n\
                 a node c tec 0 rec 0 active\n\
                 a end 400\n\
                 b node l tec 0 rec 0 active\n\
                 b node d tec 0 rec 0 active\n\
                 b end 400\n\
                 route r accepted 5 overrun 2 released 1 completed 0 aborted 0 held 3\n",
    },
    // the second frame is aborted while the controller is not on the bus yet
    Worked {
        words: &["bxgate", "run"],
        changes: &[
            Change {
                old: r#""bits":300"#,
                new: r#""bits":320"#,
            },
            Change {
                old: r#""segment":"b","on":0"#,
                new: r#""segment":"b","on":200"#,
            },
            Change {
                old: r#""to":"d"}]"#,
                new: r#""to":"d"}],"aborts":[{"route":"r","number":2,"turn":170}]"#,
            },
        ],
        report: "a 11 t started 000 data -\n\
                 a 59 c took 11 000 data -\n\
                 a 60 t completed 11 000 data -\n\
                 a 64 t started 000 data -\n\
                 a 112 c took 64 000 data -\n\
                 a 113 t completed 64 000 data -\n\
                 a 117 t started 000 data -\n\
                 a 165 c took 117 000 data -\n\
                 a 166 t completed 117 000 data -\n\
                 a node t tec 0 rec 0 active\n\
                 a node c tec 0 rec 0 active\n\
                 a end 320\n\
                 b 211 d started 000 data - r 1\n\
                 b 259 l took 211 000 data -\n\
                 b 260 d completed 211 000 data - r 1\n\
                 b 264 d started 000 data - r 3\n\
                 b 312 l took 264 000 data -\n\
                 b 313 d completed 264 000 data - r 3\n\
                 b node l tec 0 rec 0 active\n\
                 b node d tec 0 rec 0 active\n\
                 b end 320\n\
                 route r accepted 3 overrun 0 released 3 completed 2 aborted 1 held 0\n",
    },
    // by identifier, and by order of requests
    Worked {
        words: &["bxgate", "run"],
        changes: &[
            Change {
                old: r#""bits":300"#,
                new: r#""bits":320"#,
            },
            Change {
                old: r#""segment":"b","on":0"#,
                new: r#""segment":"b","on":200,"txfp":false"#,
            },
            Change {
                old: r#""frames":[{"id":0,"ext":false,"data":[]},{"id":0,"ext":false,"data":[]},{"id":0,"ext":false,"data":[]}]"#,
                new: r#""frames":[{"id":1,"ext":false,"data":[]},{"id":0,"ext":false,"data":[]}]"#,
            },
        ],
        report: "a 11 t started 001 data -\n\
                 a 56 c took 11 001 data -\n\
                 a 57 t completed 11 001 data -\n\
                 a 61 t started 000 data -\n\
                 a 109 c took 61 000 data -\n\
                 a 110 t completed 61 000 data -\n\
                 a node t tec 0 rec 0 active\n\
                 a node c tec 0 rec 0 active\n\
                 a end 320\n\
                 b 211 d started 000 data - r 2\n\
                 b 259 l took 211 000 data -\n\
                 b 260 d completed 211 000 data - r 2\n\
                 b 264 d started 001 data - r 1\n\
                 b 309 l took 264 001 data -\n\
                 b 310 d completed 264 001 data - r 1\n\
                 b node l tec 0 rec 0 active\n\
                 b node d tec 0 rec 0 active\n\
                 b end 320\n\
                 route r accepted 2 overrun 0 released 2 completed 2 aborted 0 held 0\n",
    },
    Worked {
        words: &["bxgate", "run"],
        changes: &[
            Change {
                old: r#""bits":300"#,
                new: r#""bits":320"#,
            },
            Change {
                old: r#""segment":"b","on":0"#,
                new: r#""segment":"b","on":200"#,
            },
            Change {
                old: r#""frames":[{"id":0,"ext":false,"data":[]},{"id":0,"ext":false,"data":[]},{"id":0,"ext":false,"data":[]}]"#,
                new: r#""frames":[{"id":1,"ext":false,"data":[]},{"id":0,"ext":false,"data":[]}]"#,
            },
        ],
        report: "a 11 t started 001 data -\n\
                 a 56 c took 11 001 data -\n\
                 a 57 t completed 11 001 data -\n\
                 a 61 t started 000 data -\n\
                 a 109 c took 61 000 data -\n\
                 a 110 t completed 61 000 data -\n\
                 a node t tec 0 rec 0 active\n\
                 a node c tec 0 rec 0 active\n\
                 a end 320\n\
                 b 211 d started 001 data - r 1\n\
                 b 256 l took 211 001 data -\n\
                 b 257 d completed 211 001 data - r 1\n\
                 b 261 d started 000 data - r 2\n\
                 b 309 l took 261 000 data -\n\
                 b 310 d completed 261 000 data - r 2\n\
                 b node l tec 0 rec 0 active\n\
                 b node d tec 0 rec 0 active\n\
                 b end 320\n\
                 route r accepted 2 overrun 0 released 2 completed 2 aborted 0 held 0\n",
    },
    // a route gives new identifiers, in version 2 of scripts alone
    Worked {
        words: &["bxgate", "run"],
        changes: &[
            Change {
                old: r#""version":1"#,
                new: r#""version":2"#,
            },
            Change {
                old: r#""to":"d""#,
                new: r#""to":"d","rewrite":[{"id":0,"ext":false,"new_id":1,"new_ext":false}]"#,
            },
        ],
        report: "a 11 t started 000 data -\n\
                 a 59 c took 11 000 data -\n\
                 a 60 t completed 11 000 data -\n\
                 a 64 t started 000 data -\n\
                 a 112 c took 64 000 data -\n\
                 a 113 t completed 64 000 data -\n\
                 a 117 t started 000 data -\n\
                 a 165 c took 117 000 data -\n\
                 a 166 t completed 117 000 data -\n\
                 a node t tec 0 rec 0 active\n\
                 a node c tec 0 rec 0 active\n\
                 a end 300\n\
                 b 60 d started 001 data - r 1\n\
                 b 105 l took 60 001 data -\n\
                 b 106 d completed 60 001 data - r 1\n\
                 b 113 d started 001 data - r 2\n\
                 b 158 l took 113 001 data -\n\
                 b 159 d completed 113 001 data - r 2\n\
                 b 166 d started 001 data - r 3\n\
                 b 211 l took 166 001 data -\n\
                 b 212 d completed 166 001 data - r 3\n\
                 b node l tec 0 rec 0 active\n\
                 b node d tec 0 rec 0 active\n\
                 b end 300\n\
                 route r accepted 3 overrun 0 released 3 completed 3 aborted 0 held 0\n",
    },
    Worked {
        words: &["bxgate", "run"],
        changes: &[Change {
            old: r#""to":"d""#,
            new: r#""to":"d","rewrite":[{"id":0,"ext":false,"new_id":1,"new_ext":false}]"#,
        }],
        report: "a 11 t started 000 data -\n\
                 a 59 c took 11 000 data -\n\
                 a 60 t completed 11 000 data -\n\
                 a 64 t started 000 data -\n\
                 a 112 c took 64 000 data -\n\
                 a 113 t completed 64 000 data -\n\
                 a 117 t started 000 data -\n\
                 a 165 c took 117 000 data -\n\
                 a 166 t completed 117 000 data -\n\
                 a node t tec 0 rec 0 active\n\
                 a node c tec 0 rec 0 active\n\
                 a end 300\n\
                 b 60 d started 000 data - r 1\n\
                 b 108 l took 60 000 data -\n\
                 b 109 d completed 60 000 data - r 1\n\
                 b 113 d started 000 data - r 2\n\
                 b 161 l took 113 000 data -\n\
                 b 162 d completed 113 000 data - r 2\n\
                 b 166 d started 000 data - r 3\n\
                 b 214 l took 166 000 data -\n\
                 b 215 d completed 166 000 data - r 3\n\
                 b node l tec 0 rec 0 active\n\
                 b node d tec 0 rec 0 active\n\
                 b end 300\n\
                 route r accepted 3 overrun 0 released 3 completed 3 aborted 0 held 0\n",
    },
];

#[test]
fn reports_on_a_route_changed(rt: HostRuntime) -> Result<(), Fail> {
    assert!(rt; are_reported(&rt, THREE_FRAMES, OF_THREE_FRAMES)?);
    Ok(())
}

/// The script of three frames with fewer bits: it ends right before its first frame is taken, right after, and while
/// the frame is on its way.
const OF_FEWER_BITS: &[Worked] = &[
    Worked {
        words: &["bxgate", "run"],
        changes: &[Change {
            old: r#""bits":300"#,
            new: r#""bits":59"#,
        }],
        report: "a 11 t started 000 data -\n\
                 a node t tec 0 rec 0 active\n\
                 a node c tec 0 rec 0 active\n\
                 a end 59\n\
                 b node l tec 0 rec 0 active\n\
                 b node d tec 0 rec 0 active\n\
                 b end 59\n\
                 route r accepted 0 overrun 0 released 0 completed 0 aborted 0 held 0\n",
    },
    Worked {
        words: &["bxgate", "run"],
        changes: &[Change {
            old: r#""bits":300"#,
            new: r#""bits":60"#,
        }],
        report: "a 11 t started 000 data -\n\
                 a 59 c took 11 000 data -\n\
                 a node t tec 0 rec 0 active\n\
                 a node c tec 0 rec 0 active\n\
                 a end 60\n\
                 b node l tec 0 rec 0 active\n\
                 b node d tec 0 rec 0 active\n\
                 b end 60\n\
                 route r accepted 1 overrun 0 released 1 completed 0 aborted 0 held 1\n",
    },
    Worked {
        words: &["bxgate", "run"],
        changes: &[Change {
            old: r#""bits":300"#,
            new: r#""bits":100"#,
        }],
        report: "a 11 t started 000 data -\n\
                 a 59 c took 11 000 data -\n\
                 a 60 t completed 11 000 data -\n\
                 a 64 t started 000 data -\n\
                 a node t tec 0 rec 0 active\n\
                 a node c tec 0 rec 0 active\n\
                 a end 100\n\
                 b 60 d started 000 data - r 1\n\
                 b node l tec 0 rec 0 active\n\
                 b node d tec 0 rec 0 active\n\
                 b end 100\n\
                 route r accepted 1 overrun 0 released 1 completed 0 aborted 0 held 1\n",
    },
];

#[test]
fn reports_on_an_early_end(rt: HostRuntime) -> Result<(), Fail> {
    assert!(rt; are_reported(&rt, THREE_FRAMES, OF_FEWER_BITS)?);
    Ok(())
}

/// Mailbox events of one route, of which twelve are refused.
const EACH_REFUSAL: &str = r#"{"routes":1,"events":[
        {"event":"request","route":0,"mailbox":0,"number":1,"frame":{"id":0,"ext":false,"data":[]}},
        {"event":"claim","route":0,"mailbox":0},
        {"event":"claim","route":0,"mailbox":0},
        {"event":"request","route":0,"mailbox":0,"number":16777216,"frame":{"id":0,"ext":false,"data":[]}},
        {"event":"request","route":0,"mailbox":0,"number":5,"frame":{"id":0,"ext":false,"data":[]}},
        {"event":"claim","route":0,"mailbox":1},
        {"event":"request","route":0,"mailbox":1,"number":5,"frame":{"id":0,"ext":false,"data":[]}},
        {"event":"request","route":0,"mailbox":1,"number":6,"frame":{"id":0,"ext":false,"data":[]}},
        {"event":"schedule","mailbox":1},
        {"event":"schedule","mailbox":2},
        {"event":"schedule","mailbox":0},
        {"event":"abort","route":0,"mailbox":0},
        {"event":"abort","route":0,"mailbox":0},
        {"event":"schedule","mailbox":1},
        {"event":"start","mailbox":1},
        {"event":"abort","route":0,"mailbox":1},
        {"event":"abort","route":0,"mailbox":1},
        {"event":"reap","mailbox":1},
        {"event":"fail","mailbox":1},
        {"event":"start","mailbox":1},
        {"event":"reap","mailbox":1},
        {"event":"complete","mailbox":1},
        {"event":"withdraw","route":0,"mailbox":2}
    ]}"#;

/// Mailbox events of a controller that sends by identifier: the second request is sent first.
const BY_IDENTIFIER: &str = r#"{"routes":1,"txfp":false,"events":[
        {"event":"claim","route":0,"mailbox":0},
        {"event":"request","route":0,"mailbox":0,"number":1,"frame":{"id":1,"ext":false,"data":[]}},
        {"event":"claim","route":0,"mailbox":1},
        {"event":"request","route":0,"mailbox":1,"number":2,"frame":{"id":0,"ext":false,"data":[]}},
        {"event":"schedule","mailbox":0},
        {"event":"schedule","mailbox":1},
        {"event":"start","mailbox":1},
        {"event":"complete","mailbox":1},
        {"event":"schedule","mailbox":0},
        {"event":"start","mailbox":0},
        {"event":"complete","mailbox":0}
    ]}"#;

#[test]
fn reports_on_mailbox_events(rt: HostRuntime) -> Result<(), Fail> {
    let refused = "event 0 refused C2\n\
        event 2 refused C1\n\
        event 3 refused C5\n\
        event 6 refused C5\n\
        event 8 refused C3\n\
        event 9 refused C4\n\
        event 12 refused C2\n\
        event 16 refused C4\n\
        event 17 refused C4\n\
        event 19 refused C4\n\
        event 21 refused C4\n\
        event 22 refused C2\n\
        route 0 requested 2 done 0 aborted 1 reaped 1 waiting 0\n";
    assert!(rt; is_reported(&rt, ["bxgate", "core"].as_slice(), EACH_REFUSAL, refused));
    let sent = "event 4 refused C3\n\
        done 0 2 000 data - 00000100000100000100000100000100000100001111111111\n\
        done 0 1 001 data - 00000100000101000001000100010000100111111111111\n\
        route 0 requested 2 done 2 aborted 0 reaped 0 waiting 0\n";
    assert!(rt; is_reported(&rt, ["bxgate", "core"].as_slice(), BY_IDENTIFIER, sent));
    Ok(())
}
