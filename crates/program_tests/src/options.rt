//! What the option `--slack` does: how far a segment gets ahead of another one.

use crate::run::run_of;
use std::alloc::{AllocError, Global};
use std::str;
use std::test::Fail;

/// A script of two segments and a route from `a` to `b`. On `a` a talker sends 200 frames with other identifiers each,
/// and on `b` fifteen talkers always have a frame of a lower priority to send, so that a bit of `b` takes longer.
fn uneven_script(alloc: Global, bits: u32) -> Result<String, AllocError> {
    let mut frames = String::new(alloc);
    for number in 0..200u32 {
        let comma = if number == 0 { "" } else { "," };
        write!(frames, r#"{comma}{{"id":{number},"ext":false,"data":[]}}"#)?;
    }
    let mut talkers = String::new(alloc);
    for number in 0..15u32 {
        let comma = if number == 0 { "" } else { "," };
        write!(talkers, r#"{comma}{{"name":"n{number}","on":0,"frames":["#)?;
        for place in 0..40u32 {
            let comma = if place == 0 { "" } else { "," };
            write!(
                talkers,
                r#"{comma}{{"id":20{number:02},"ext":false,"data":[]}}"#
            )?;
        }
        talkers.push_str("]}")?;
    }
    format!(in alloc;
        r#"{{"version":1,"bits":{bits},"segments":[{{"name":"a","talkers":[{{"name":"t","on":0,"frames":[{frames}]}}]}},{{"name":"b","talkers":[{talkers}]}}],"controllers":[{{"name":"c","segment":"a","on":0,"banks":[{{"bank":0,"scale":32,"mode":"mask","fifo":0,"active":true,"r1":0,"r2":0}}]}},{{"name":"d","segment":"b","on":0,"banks":[]}}],"routes":[{{"name":"r","from":"c","fifo":0,"to":"d"}}]}}"#
    )
}

/// The words of a line.
fn words_of<'a>(alloc: Global, line: &'a str) -> Result<Vec<&'a str>, AllocError> {
    line.split_whitespace().collect(alloc)
}

/// The bit and the identifier that these words have at two places.
fn bit_and_identifier(words: &[&str], bit: usize, identifier: usize) -> Option<(u64, u64)> {
    let bit = words.get(bit)?.parse::<u64>().ok()?;
    let identifier = u64::from_str_radix(words.get(identifier)?, 16).ok()?;
    Some((bit, identifier))
}

/// How many starts on `b` the report has, and whether each came no earlier than the slack allows: a segment makes a bit
/// only where no other is more than the slack behind afterwards. So once a frame was taken at bit t of `a`, `b` has
/// made at least t + 1 bits less the slack.
fn starts_within(alloc: Global, report: &str, slack: u64) -> Result<(usize, bool), Fail> {
    let mut taken = Vec::new(alloc);
    let mut starts = 0usize;
    let mut all_within = true;
    for line in report.lines() {
        let words = words_of(alloc, line)?;
        match words.as_slice() {
            ["a", _, "c", "took", ..] => taken.push(bit_and_identifier(words.as_slice(), 1, 5))?,
            ["b", _, "d", "started", ..] => {
                let Some((bit, identifier)) = bit_and_identifier(words.as_slice(), 1, 4) else {
                    return Err(Fail::from("a start without a number"));
                };
                let found = taken.iter().any(|one| match one {
                    Some((took, of)) => *of == identifier && *took < bit.saturating_add(slack),
                    None => false,
                });
                all_within = all_within && found;
                starts = starts.saturating_add(1);
            }
            _ => {}
        }
    }
    Ok((starts, all_within))
}

#[test]
fn starts_no_earlier_than_the_slack_allows(rt: HostRuntime) -> Result<(), Fail> {
    let script = uneven_script(rt.alloc(), 15_000)?;
    for (slack, words) in [
        (
            1u64,
            ["bxgate", "run", "--threads", "1", "--slack", "1"].as_slice(),
        ),
        (
            7,
            ["bxgate", "run", "--threads", "2", "--slack", "7"].as_slice(),
        ),
    ] {
        let run = run_of(&rt, words, script.as_str().as_bytes());
        assert_eq!(rt; run.status, 0);
        let Ok(report) = str::from_utf8(run.output.as_slice()) else {
            return Err(Fail::from("a report that is no text"));
        };
        let (starts, all_within) = starts_within(rt.alloc(), report, slack)?;
        assert!(rt; starts > 0);
        assert!(rt; all_within);
    }
    Ok(())
}
