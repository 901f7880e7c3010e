//! Scripts and event lists that are refused, each with its first fault, and texts at the limits of JSON.

use crate::run::{is_refused, run_of};
use crate::runs::{THREE_FRAMES, THREE_FRAMES_REPORT, changed, is_reported};
use crate::worked::{Change, changed_by};
use std::alloc::{AllocError, Global};
use std::test::Fail;

/// A change of the script of three frames, and the fault for which it is refused then.
#[derive(Clone, Copy)]
struct Refusal {
    old: &'static str,
    new: &'static str,
    fault: &'static str,
}

const REFUSALS: &[Refusal] = &[
    Refusal {
        old: r#""bits":300"#,
        new: r#""bits":-1"#,
        fault: "J3 Kind bits",
    },
    Refusal {
        old: r#""bits":300"#,
        new: r#""bits":1.0"#,
        fault: "J3 Kind bits",
    },
    Refusal {
        old: r#""bits":300"#,
        new: r#""bits":0"#,
        fault: "J4 Range bits",
    },
    Refusal {
        old: r#""bits":300"#,
        new: r#""bits":1000001"#,
        fault: "J4 Range bits",
    },
    Refusal {
        old: r#""version":1"#,
        new: r#""version":"1""#,
        fault: "J3 Kind version",
    },
    Refusal {
        old: r#""version":1"#,
        new: r#""version":7"#,
        fault: "J9 Version",
    },
    Refusal {
        old: r#""from":"c","fifo":0"#,
        new: r#""from":"c","fifo":2"#,
        fault: "J4 Range fifo",
    },
    Refusal {
        old: r#""to":"d""#,
        new: r#""to":"x""#,
        fault: "J5 UnknownName to",
    },
    Refusal {
        old: r#"{"name":"b","talkers""#,
        new: r#"{"name":"a","talkers""#,
        fault: "J6 DoubleName segments",
    },
    Refusal {
        old: r#""name":"t","#,
        new: r#""name":"t t","#,
        fault: "J4 Range name",
    },
    // two routes from one FIFO
    Refusal {
        old: r#""to":"d"}]"#,
        new: r#""to":"d"},{"name":"q","from":"c","fifo":0,"to":"d"}]"#,
        fault: "J7 FifoTwice 1",
    },
    // of two fields with one name the last one counts
    Refusal {
        old: r#""bits":300"#,
        new: r#""bits":300,"bits":0"#,
        fault: "J4 Range bits",
    },
    // a bank that only version 2 has
    Refusal {
        old: r#""bank":0"#,
        new: r#""bank":27"#,
        fault: "J4 Range bank",
    },
];

#[test]
fn refuses_one_wrong_field(rt: HostRuntime) -> Result<(), Fail> {
    for Refusal { old, new, fault } in REFUSALS {
        let script = changed(rt.alloc(), THREE_FRAMES, old, new)?;
        assert!(rt;
            is_refused(&rt, "run", script.as_str().as_bytes(), fault)?,
            "{fault} for {new}"
        );
    }
    assert!(rt; is_refused(&rt, "run", b"{}".as_slice(), "J2 Missing version")?);
    Ok(())
}

#[test]
fn refuses_each_front_of_a_script(rt: HostRuntime) -> Result<(), Fail> {
    let bytes = THREE_FRAMES.as_bytes();
    for length in 0..bytes.len() {
        assert!(rt;
            is_refused(&rt, "run", &bytes[..length], "J1 NotJson")?,
            "{length} bytes"
        );
    }
    Ok(())
}

/// Five controllers on one segment, and nine routes from their FIFOs into one controller.
fn nine_routes(alloc: Global) -> Result<String, AllocError> {
    let mut controllers = String::new(alloc);
    for number in 0..5u32 {
        write!(
            controllers,
            r#"{{"name":"c{number}","segment":"a","on":0,"banks":[]}},"#
        )?;
    }
    let mut routes = String::new(alloc);
    for number in 0..9u32 {
        let comma = if number == 0 { "" } else { "," };
        let (controller, fifo) = (number / 2, number % 2);
        write!(
            routes,
            r#"{comma}{{"name":"r{number}","from":"c{controller}","fifo":{fifo},"to":"d"}}"#
        )?;
    }
    format!(in alloc;
        r#"{{"version":1,"bits":9,"segments":[{{"name":"a","talkers":[]}}],"controllers":[{controllers}{{"name":"d","segment":"a","on":0,"banks":[]}}],"routes":[{routes}]}}"#
    )
}

#[test]
fn refuses_nine_routes_into_a_controller(rt: HostRuntime) -> Result<(), Fail> {
    let script = nine_routes(rt.alloc())?;
    assert!(rt; is_refused(&rt, "run", script.as_str().as_bytes(), "J8 TooMany routes")?);
    Ok(())
}

/// The script of three frames with a field that is ignored, whose value is so many lists in each other.
fn nested(alloc: Global, lists: u32) -> Result<String, AllocError> {
    let mut value = String::from_str(alloc, r#"{"x":"#)?;
    for _ in 0..lists {
        value.push_str("[")?;
    }
    for _ in 0..lists {
        value.push_str("]")?;
    }
    value.push_str(r#","version":1"#)?;
    changed(alloc, THREE_FRAMES, r#"{"version":1"#, value.as_str())
}

#[test]
fn reads_values_nested_127_deep(rt: HostRuntime) -> Result<(), Fail> {
    let alloc = rt.alloc();
    // the script itself is an object
    let script = nested(alloc, 126)?;
    assert!(rt;
        is_reported(
            &rt,
            ["bxgate", "run"].as_slice(),
            script.as_str(),
            THREE_FRAMES_REPORT
        )
    );
    let script = nested(alloc, 127)?;
    assert!(rt; is_refused(&rt, "run", script.as_str().as_bytes(), "J1 NotJson")?);
    Ok(())
}

#[test]
fn takes_the_last_of_two_fields(rt: HostRuntime) -> Result<(), Fail> {
    let script = changed(
        rt.alloc(),
        THREE_FRAMES,
        r#""bits":300"#,
        r#""bits":0,"bits":300"#,
    )?;
    assert!(rt;
        is_reported(
            &rt,
            ["bxgate", "run"].as_slice(),
            script.as_str(),
            THREE_FRAMES_REPORT
        )
    );
    Ok(())
}

#[test]
fn refuses_bytes_that_are_not_utf8(rt: HostRuntime) -> Result<(), Fail> {
    let script = changed(
        rt.alloc(),
        THREE_FRAMES,
        r#"{"version""#,
        r#"{"x":"?","version""#,
    )?;
    let mut bytes = Vec::from_slice(rt.alloc(), script.as_str().as_bytes())?;
    for byte in &mut bytes {
        if *byte == b'?' {
            *byte = 0xff;
        }
    }
    assert!(rt; is_refused(&rt, "run", bytes.as_slice(), "J1 NotJson")?);
    Ok(())
}

/// Bank 27 alone, in version 2: a list of standard data frames with the identifiers 0x123 and 0. Of the three frames,
/// 0x123, 0x124 and 0x125, the controller takes the first alone.
#[test]
fn filters_by_the_last_bank(rt: HostRuntime) -> Result<(), Fail> {
    let script = changed_by(
        rt.alloc(),
        THREE_FRAMES,
        &[
            Change {
                old: r#""version":1"#,
                new: r#""version":2"#,
            },
            Change {
                old: r#"[{"id":0,"ext":false,"data":[]},{"id":0,"ext":false,"data":[]},{"id":0,"#,
                new: r#"[{"id":291,"ext":false,"data":[]},{"id":292,"ext":false,"data":[]},{"id":293,"#,
            },
            Change {
                old: r#""bank":0,"scale":32,"mode":"mask","fifo":0,"active":true,"r1":0,"r2":0"#,
                new: r#""bank":27,"scale":32,"mode":"list","fifo":0,"active":true,"r1":610271232,"r2":0"#,
            },
        ],
    )?;
    let run = run_of(
        &rt,
        ["bxgate", "run"].as_slice(),
        script.as_str().as_bytes(),
    );
    assert_eq!(rt; run.status, 0);
    let last = b"route r accepted 1 overrun 0 released 1 completed 1 aborted 0 held 0\n".as_slice();
    assert!(rt; run.output.as_slice().ends_with(last));
    Ok(())
}
