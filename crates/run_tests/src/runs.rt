//! Worked runs of gateways.

ghost use Rattle.std.specs.Prelude.{◌<◌};

use gw_run::{RunFault, run_inline};
use gw_script::{Report, RouteReport, ScriptFault, read};
use std::alloc::Global;
use std::sync::Wait;
use std::test::Fail;

/// Two segments with a route between them, and three equal frames that go over it.
pub(crate) const THREE_FRAMES: &str =
    r#"{"version":1,"bits":300,"segments":[{"name":"a","talkers":[{"name":"t","on":0,"frames":[{"id":0,"ext":false,"data":[]},{"id":0,"ext":false,"data":[]},{"id":0,"ext":false,"data":[]}]}]},{"name":"b","talkers":[{"name":"l","on":0,"frames":[]}]}],"controllers":[{"name":"c","segment":"a","on":0,"banks":[{"bank":0,"scale":32,"mode":"mask","fifo":0,"active":true,"r1":0,"r2":0}]},{"name":"d","segment":"b","on":0,"banks":[]}],"routes":[{"name":"r","from":"c","fifo":0,"to":"d"}]}"#;

/// The report, or why the run or the script gave none.
fn outcome_of<R: Wait>(
    rt: &R,
    alloc: Global,
    text: &str,
    turn: u32,
) -> Result<Result<Report, RunFault>, ScriptFault>
    requires { 0 < turn }
{
    match read(alloc, text.as_bytes()) {
        Ok(script) => Ok(run_inline(rt, alloc, &script, turn)),
        Err(fault) => Err(fault),
    }
}

fn report_on<R: Wait>(rt: &R, alloc: Global, text: &str, turn: u32) -> Result<Report, Fail>
    requires { 0 < turn }
{
    match outcome_of(rt, alloc, text, turn) {
        Ok(Ok(report)) => Ok(report),
        Ok(Err(fault)) => Err(fault.into()),
        Err(fault) => Err(fault.into()),
    }
}

/// Accepted, overrun, released, completed, aborted and held.
fn counts_of(route: &RouteReport) -> [u64; 6] {
    [
        route.accepted,
        route.overrun,
        route.released.len() as u64,
        route.completed.len() as u64,
        route.aborted.len() as u64,
        route.held,
    ]
}

#[test]
fn three_frames_go_over_a_route(rt: HostRuntime) -> Result<(), Fail> {
    let report = match report_on(&rt, rt.alloc(), THREE_FRAMES, 1) {
        Ok(report) => report,
        Err(fail) => return Err(fail),
    };
    let mut routes = report.routes.iter();
    assert!(rt; routes.next().map(counts_of) == Some([3, 0, 3, 3, 0, 0]));
    assert!(rt; routes.next().is_none());
    let mut segments = report.segments.iter();
    let first = [11, 59, 60, 64, 112, 113, 117, 165, 166];
    let second = [60, 108, 109, 113, 161, 162, 166, 214, 215];
    for bits in [first, second] {
        let reported = segments.next();
        assert!(rt; reported.map(|record| record.levels.len()) == Some(300));
        assert!(rt;
            reported.map(|record| record.events.iter().map(|event| event.bit()).eq(bits))
                == Some(true)
        );
    }
    assert!(rt; segments.next().is_none());
    Ok(())
}

/// Each growth may be refused: then there is no report, and else it is as with ample memory.
#[test]
fn answers_or_wants_memory(rt: HostRuntime) -> Result<(), Fail> {
    match outcome_of(&rt, rt.alloc(), THREE_FRAMES, 1) {
        Ok(Ok(report)) => {
            assert!(rt; report.routes.iter().map(counts_of).next() == Some([3, 0, 3, 3, 0, 0]));
            Ok(())
        }
        Ok(Err(RunFault::Memory)) => Ok(()),
        Err(ScriptFault::Memory) => Ok(()),
        Ok(Err(fault)) => Err(fault.into()),
        Err(fault) => Err(fault.into()),
    }
}
