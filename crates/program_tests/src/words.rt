//! Words that ask for nothing, and numbers at the ends of their ranges.

use crate::event_lists::SENDS_ONE_FRAME;
use crate::run::run_of;
use crate::runs::ONE_FRAME;

#[test]
fn asks_for_a_command(rt: HostRuntime) {
    for (words, status) in [
        (["bxgate"].as_slice(), 64u8),
        (["bxgate", "cove"].as_slice(), 64),
        (["bxgate", "core", "core", "core"].as_slice(), 64),
        (["bxgate", "core", "--turn", "1"].as_slice(), 64),
        (["bxgate", "--turn", "1", "run"].as_slice(), 64),
        (["bxgate", "--help"].as_slice(), 0),
        (["bxgate", "run", "--help"].as_slice(), 0),
    ] {
        let run = run_of(&rt, words, SENDS_ONE_FRAME.as_bytes());
        assert_eq!(rt; run.status, status);
        assert_eq!(rt; run.output.is_empty(), status == 64);
        assert_eq!(rt; run.faults.is_empty(), status == 0);
    }
}

#[test]
fn asks_for_a_number_of_bits(rt: HostRuntime) {
    for words in [
        ["bxgate", "run", "--turn"].as_slice(),
        ["bxgate", "run", "--turn", "0"].as_slice(),
        ["bxgate", "run", "--turn", "1000001"].as_slice(),
        ["bxgate", "run", "--turn", "4294967297"].as_slice(),
        ["bxgate", "run", "--turn", "-1"].as_slice(),
        ["bxgate", "run", "--turn=-1"].as_slice(),
        ["bxgate", "run", "--turn", ""].as_slice(),
        ["bxgate", "run", "--turn", "1.0"].as_slice(),
        ["bxgate", "run", "--turn", "one"].as_slice(),
        ["bxgate", "run", "--turn", "1", "--turn", "1"].as_slice(),
        ["bxgate", "run", "--turn", "1", "1", "1"].as_slice(),
        ["bxgate", "run", "1", "1"].as_slice(),
        ["bxgate", "run", "--turns", "1"].as_slice(),
        ["bxgate", "run", "--threads"].as_slice(),
        ["bxgate", "run", "--threads", "0"].as_slice(),
        ["bxgate", "run", "--threads", "17"].as_slice(),
        ["bxgate", "run", "--threads", "four"].as_slice(),
        ["bxgate", "run", "--threads", "4", "--threads", "4"].as_slice(),
        ["bxgate", "run", "--threads", "4", "--turn", "0"].as_slice(),
        ["bxgate", "run", "--threads", "4", "--slack"].as_slice(),
        ["bxgate", "run", "--threads", "4", "--slack", "0"].as_slice(),
        ["bxgate", "run", "--threads", "4", "--slack", "1000001"].as_slice(),
        ["bxgate", "run", "--slack", "0"].as_slice(),
    ] {
        let run = run_of(&rt, words, ONE_FRAME.as_bytes());
        assert_eq!(rt; run.status, 64);
        assert!(rt; run.output.is_empty());
        assert!(rt; !run.faults.is_empty());
    }
    // the words come before the script
    for words in [
        ["bxgate", "run", "--turn", "1"].as_slice(),
        ["bxgate", "run", "--turn=1000000"].as_slice(),
        ["bxgate", "run", "--threads", "16"].as_slice(),
        ["bxgate", "run", "--turn", "2", "--threads", "1"].as_slice(),
        ["bxgate", "run", "--threads", "1", "--slack", "1000000"].as_slice(),
        ["bxgate", "run", "--slack=1"].as_slice(),
    ] {
        let run = run_of(&rt, words, b"{}");
        assert_eq!(rt; run.status, 2);
        assert_eq!(rt;
            run.faults.as_slice(),
            b"bxgate: J2 Missing version\n".as_slice()
        );
    }
}
