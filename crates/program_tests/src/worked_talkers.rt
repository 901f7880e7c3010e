//! Worked runs of talkers and listeners: arbitration, wrong samples, error passive and bus off.

ghost use Rattle.std.specs.Prelude.{◌≤◌};

use crate::runs::{ONE_FRAME, changed, is_reported};
use crate::worked::{Change, Worked, are_reported, changed_by};
use std::alloc::{AllocError, Global};
use std::test::Fail;

/// The script of one frame, changed.
const OF_ONE_FRAME: &[Worked] = &[
    // two frames that begin together: the standard one wins at the IDE bit
    Worked {
        words: &["bxgate", "run"],
        changes: &[
            Change {
                old: r#""bits":64"#,
                new: r#""bits":132"#,
            },
            Change {
                old: r#""name":"t","on":0,"frames":[{"id":0,"ext":false,"data":[]}]"#,
                new: r#""name":"s","on":0,"frames":[{"id":0,"ext":false,"remote":0}]"#,
            },
            Change {
                old: r#""name":"l","on":0,"frames":[]"#,
                new: r#""name":"e","on":0,"frames":[{"id":0,"ext":true,"data":[]}]"#,
            },
        ],
        report: "a 11 s started 000 remote 0\n\
                 a 11 e started 00000000 data -\n\
                 a 26 e lost 11\n\
                 a 56 e took 11 000 remote 0\n\
                 a 57 s completed 11 000 remote 0\n\
                 a 61 e started 00000000 data -\n\
                 a 130 s took 61 00000000 data -\n\
                 a 131 e completed 61 00000000 data -\n\
                 a node s tec 0 rec 0 active\n\
                 a node e tec 0 rec 0 active\n\
                 a end 132\n",
    },
    // one frame
    Worked {
        words: &["bxgate", "run"],
        changes: &[],
        report: "a 11 t started 000 data -\n\
                 a 59 l took 11 000 data -\n\
                 a 60 t completed 11 000 data -\n\
                 a node t tec 0 rec 0 active\n\
                 a node l tec 0 rec 0 active\n\
                 a end 64\n",
    },
    // a dominant third bit of the intermission is SOF
    Worked {
        words: &["bxgate", "run"],
        changes: &[
            Change {
                old: r#""bits":64"#,
                new: r#""bits":113"#,
            },
            Change {
                old: r#""data":[]}]"#,
                new: r#""data":[]},{"id":0,"ext":false,"data":[]}]"#,
            },
            Change {
                old: r#""routes":[]"#,
                new: r#""routes":[],"faults":[{"segment":"a","bit":63,"level":0}]"#,
            },
        ],
        report: "a 11 t started 000 data -\n\
                 a 59 l took 11 000 data -\n\
                 a 60 t completed 11 000 data -\n\
                 a 64 t started 000 data -\n\
                 a 111 l took 63 000 data -\n\
                 a 112 t completed 63 000 data -\n\
                 a node t tec 0 rec 0 active\n\
                 a node l tec 0 rec 0 active\n\
                 a end 113\n",
    },
    // a wrong sample at the last bit of EOF, and at the last but one
    Worked {
        words: &["bxgate", "run"],
        changes: &[
            Change {
                old: r#""bits":64"#,
                new: r#""bits":132"#,
            },
            Change {
                old: r#""routes":[]"#,
                new: r#""routes":[],"faults":[{"node":"t","bit":60}]"#,
            },
        ],
        report: "a 11 t started 000 data -\n\
                 a 59 l took 11 000 data -\n\
                 a 60 t error bit\n\
                 a 79 t started 000 data -\n\
                 a 127 l took 79 000 data -\n\
                 a 128 t completed 79 000 data -\n\
                 a node t tec 7 rec 0 active\n\
                 a node l tec 0 rec 0 active\n\
                 a end 132\n",
    },
    Worked {
        words: &["bxgate", "run"],
        changes: &[
            Change {
                old: r#""bits":64"#,
                new: r#""bits":131"#,
            },
            Change {
                old: r#""routes":[]"#,
                new: r#""routes":[],"faults":[{"node":"t","bit":59}]"#,
            },
        ],
        report: "a 11 t started 000 data -\n\
                 a 59 t error bit\n\
                 a 59 l took 11 000 data -\n\
                 a 78 t started 000 data -\n\
                 a 126 l took 78 000 data -\n\
                 a 127 t completed 78 000 data -\n\
                 a node t tec 7 rec 0 active\n\
                 a node l tec 0 rec 0 active\n\
                 a end 131\n",
    },
];

#[test]
fn reports_on_one_frame_changed(rt: HostRuntime) -> Result<(), Fail> {
    assert!(rt; are_reported(&rt, ONE_FRAME, OF_ONE_FRAME)?);
    Ok(())
}

/// One wrong sample of the sender near the end of its frame, and what follows.
#[derive(Clone, Copy)]
struct WrongSample {
    bit: u32,
    /// The two lines on the error.
    errors: &'static str,
    /// SOF of the second attempt.
    start: u32,
}

/// The sender's sample inverted at each bit from the CRC delimiter to the last bit of EOF. Up to the sixth bit of EOF
/// the listener takes one copy, afterwards two.
const WRONG_SAMPLES: [WrongSample; 10] = [
    WrongSample {
        bit: 51,
        errors: "a 51 t error bit\na 53 l error form\n",
        start: 71,
    },
    WrongSample {
        bit: 52,
        errors: "a 52 t error ack\na 53 l error form\n",
        start: 71,
    },
    WrongSample {
        bit: 53,
        errors: "a 53 t error bit\na 54 l error form\n",
        start: 72,
    },
    WrongSample {
        bit: 54,
        errors: "a 54 t error bit\na 55 l error form\n",
        start: 73,
    },
    WrongSample {
        bit: 55,
        errors: "a 55 t error bit\na 56 l error form\n",
        start: 74,
    },
    WrongSample {
        bit: 56,
        errors: "a 56 t error bit\na 57 l error form\n",
        start: 75,
    },
    WrongSample {
        bit: 57,
        errors: "a 57 t error bit\na 58 l error form\n",
        start: 76,
    },
    WrongSample {
        bit: 58,
        errors: "a 58 t error bit\na 59 l error form\n",
        start: 77,
    },
    WrongSample {
        bit: 59,
        errors: "a 59 t error bit\na 59 l took 11 000 data -\n",
        start: 78,
    },
    WrongSample {
        bit: 60,
        errors: "a 59 l took 11 000 data -\na 60 t error bit\n",
        start: 79,
    },
];

#[test]
fn reports_on_one_wrong_sample(rt: HostRuntime) -> Result<(), Fail> {
    let alloc = rt.alloc();
    for WrongSample { bit, errors, start } in WRONG_SAMPLES {
        let longer = changed(alloc, ONE_FRAME, "\"bits\":64", "\"bits\":132")?;
        let faults = format!(in alloc;
            "\"routes\":[],\"faults\":[{{\"node\":\"t\",\"bit\":{bit}}}]"
        )?;
        let script = changed(alloc, longer.as_str(), "\"routes\":[]", faults.as_str())?;
        let (taken, sent) = (start + 48, start + 49);
        let report = format!(in alloc;
            "a 11 t started 000 data -\n{errors}a {start} t started 000 data -\na {taken} l took {start} 000 data -\n\
             a {sent} t completed {start} 000 data -\na node t tec 7 rec 0 active\na node l tec 0 rec 0 active\n\
             a end 132\n"
        )?;
        assert!(rt;
            is_reported(
                &rt,
                ["bxgate", "run"].as_slice(),
                script.as_str(),
                report.as_str()
            )
        );
    }
    Ok(())
}

/// A talker that nobody acknowledges: its frame is sent again and again.
const ALONE: &str =
    r#"{"version":1,"bits":2000,"segments":[{"name":"a","talkers":[{"name":"t","on":0,"frames":[{"id":0,"ext":false,"data":[]}]}]}],"controllers":[],"routes":[]}"#;

/// The lines of so many attempts that end in an ACK error, 41 bits after SOF, each `apart` bits after the one before.
fn push_attempts(report: &mut String, first: u32, apart: u32, count: u32) -> Result<(), AllocError>
    requires few { count ≤ 16 }
    requires apart { apart ≤ 100 }
    requires first { first ≤ 3000 }
{
    for k in 0..count {
        let start = first + apart * k;
        let end = start + 41;
        write!(
            report,
            "a {start} t started 000 data -\na {end} t error ack\n"
        )?;
    }
    Ok(())
}

/// Sixteen attempts while the talker is error active, which bring it to error passive, with a TEC of 128.
fn sixteen_attempts(alloc: Global) -> Result<String, AllocError> {
    let mut report = String::new(alloc);
    push_attempts(&mut report, 11, 59, 16)?;
    Ok(report)
}

#[test]
fn reports_on_a_talker_alone(rt: HostRuntime) -> Result<(), Fail> {
    let mut report = sixteen_attempts(rt.alloc())?;
    push_attempts(&mut report, 963, 67, 15)?;
    report.push_str("a 1968 t started 000 data -\na node t tec 128 rec 0 passive\na end 2000\n")?;
    assert!(rt; is_reported(&rt, ["bxgate", "run"].as_slice(), ALONE, report.as_str()));
    Ok(())
}

#[test]
fn reports_on_an_error_passive_talker(rt: HostRuntime) -> Result<(), Fail> {
    let alloc = rt.alloc();
    let script = changed_by(
        alloc,
        ONE_FRAME,
        &[
            Change {
                old: "\"bits\":64",
                new: "\"bits\":1080",
            },
            Change {
                old: "\"name\":\"l\",\"on\":0",
                new: "\"name\":\"l\",\"on\":950",
            },
            Change {
                old: "\"routes\":[]",
                new: "\"routes\":[],\"faults\":[{\"node\":\"t\",\"bit\":1003}]",
            },
        ],
    )?;
    let mut report = sixteen_attempts(alloc)?;
    report.push_str(
        "a 963 t started 000 data -\na 1003 t error bit\na 1011 l took 963 000 data -\n\
         a 1030 t started 000 data -\na 1078 l took 1030 000 data -\na 1079 t completed 1030 000 data -\n\
         a node t tec 135 rec 0 passive\na node l tec 0 rec 0 active\na end 1080\n",
    )?;
    assert!(rt;
        is_reported(
            &rt,
            ["bxgate", "run"].as_slice(),
            script.as_str(),
            report.as_str()
        )
    );
    Ok(())
}

#[test]
fn reports_on_bus_off(rt: HostRuntime) -> Result<(), Fail> {
    let alloc = rt.alloc();
    let mut faults = String::new(alloc);
    let mut report = sixteen_attempts(alloc)?;
    for j in 0..16u32 {
        let bit = 963 + 26 * j;
        let comma = if j == 0 { "" } else { "," };
        write!(faults, "{comma}{{\"node\":\"t\",\"bit\":{bit}}}")?;
        let ends = if j < 15 { "error bit" } else { "off" };
        write!(report, "a {bit} t started 000 data -\na {bit} t {ends}\n")?;
    }
    report.push_str(
        "a 2761 t back\na 2762 t started 000 data -\na node t tec 0 rec 0 active\na end 2800\n",
    )?;
    let longer = changed(alloc, ALONE, "\"bits\":2000", "\"bits\":2800")?;
    let with_faults = format!(in alloc; "\"routes\":[],\"faults\":[{faults}]")?;
    let script = changed(
        alloc,
        longer.as_str(),
        "\"routes\":[]",
        with_faults.as_str(),
    )?;
    assert!(rt;
        is_reported(
            &rt,
            ["bxgate", "run"].as_slice(),
            script.as_str(),
            report.as_str()
        )
    );
    Ok(())
}
