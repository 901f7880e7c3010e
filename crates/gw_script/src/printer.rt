//! The report on a run, as a text.

ghost use Rattle.std.specs.Prelude.{◌≡◌, ◌≤◌, ℕ, length, take, Err, IfOk, OnOk};
ghost use Rattle.std.specs.Io.KnownBytes.{Appends, Keeps};
ghost use Rattle.gw_script.specs.Lines.{lines_from};
ghost use Rattle.gw_script.specs.NamedPlaces.{Names};
ghost use Rattle.gw_script.specs.ReportTexts.{route_line, report_text};

use crate::print_fault::PrintFault;
use crate::report::Report;
use crate::report_text::{push_routes, text_of};
use crate::report_writer::write_report;
use crate::route_report::RouteReport;
use crate::segment_lines::{lines_of_all, longest_of_all};
use can_frame::Memory;
use gw_config::Script;
use gw_streams::WriteFault;
use std::alloc::{AllocError, Global};
use std::io::Write;

/// The text of a report, with the names that the script gives: for each segment a line for each of its
/// events, one for each of its nodes and one for its end, and then a line for each route. `Memory` only
/// where a growth of the text was refused.
pub fn print(alloc: Global, script: &Script, report: &Report) -> Result<Vec<u8>, Memory>
    requires { Names script.now report.now }
    ensures text { IfOk result (λ bytes. bytes.items ≡ report_text script.now report.now) }
{
    match text_of(alloc, script, report) {
        Ok(text) => Ok(text),
        Err(_) => Err(Memory),
    }
}

/// The lines of the routes, one after another.
fn text_of_routes(
    alloc: Global,
    script: &Script,
    routes: &[RouteReport],
) -> Result<Vec<u8>, AllocError>
    requires { length routes.now ≤ length script.now.routes }
    ensures { IfOk result (λ bytes. bytes.items ≡ lines_from (route_line script.now) 0 routes.now) }
{
    let mut text = Vec::new(alloc);
    push_routes(&mut text, script, routes)?;
    Ok(text)
}

/// How many bytes of a report are gathered before they are written, but for the last line: so few that they stay in
/// the processor's cache.
const GATHERED: usize = 65_536;

/// Writes the text of a report, as `print` gives it, while it is made, so that never all of it is kept. Each request
/// for memory comes before the first write: `Memory` only where one was refused, and then nothing was written. `Write`
/// where a write failed: then a front of the text was written, and nothing else.
pub fn print_to<W: Write>(
    alloc: Global,
    script: &Script,
    report: &Report,
    output: &mut W,
) -> Result<(), PrintFault>
    requires { Names script.now report.now }
    ensures whole { OnOk result (Appends (W.contents output.old) (W.contents output.new)
        (report_text script.now report.now)) }
    ensures memory { result ≡ Err PrintFault.Memory → Keeps (W.contents output.old) (W.contents output.new) }
    ensures front { result ≡ Err PrintFault.Write → (n : ℕ) × Appends (W.contents output.old) (W.contents output.new)
        (take n (report_text script.now report.now)) }
{
    let Ok(mut all) = lines_of_all(alloc, script, report) else {
        return Err(PrintFault::Memory);
    };
    let Ok(routes) = text_of_routes(alloc, script, report.routes.as_slice()) else {
        return Err(PrintFault::Memory);
    };
    let room = longest_of_all(all.as_slice()).saturating_add(GATHERED);
    let Ok(mut text) = Vec::with_capacity(alloc, room) else {
        return Err(PrintFault::Memory);
    };
    let lines = all.as_mut_slice();
    match write_report(output, &mut text, lines, routes.as_slice(), script, report) {
        Ok(()) => Ok(()),
        Err(WriteFault) => Err(PrintFault::Write),
    }
}
