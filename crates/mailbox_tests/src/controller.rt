//! A controller apart from any run.

use bx_controller::{Intake, Port};
use bx_core::{PlainMail, TxBus};
use bx_rx::{Bank, Banks, Mode, RxFifo, RxFrame, Scale};
use can_frame::{Frame, Id};
use can_segment::RxSink;
use std::test::Fail;

/// A standard data frame with no bytes.
fn data(number: u16) -> Result<Frame, Fail> {
    Ok(Frame::with_bytes(Id::standard(number)?, &[])?)
}

/// Two identifiers are let in, by a list of bank 0 (filters 0 to 3) and a mask of bank 5 (filter 12, behind the eight
/// of the banks between). The fourth frame that is let in finds three in the FIFO.
#[test]
fn frames_that_match_come_into_the_fifo(rt: HostRuntime) -> Result<(), Fail> {
    let mut banks = Banks::new();
    banks.set(
        0,
        Bank::new(Scale::Bits16, Mode::List, 0, true, 0x2460_2460, 0x2460_2460),
    );
    banks.set(
        5,
        Bank::new(Scale::Bits32, Mode::Mask, 0, true, 0x2480_0000, 0xFFE0_0006),
    );
    let (rxin, mut rxout) = RxFifo::pair(rt.alloc())?;
    let mut port = Port {
        mail: PlainMail::new(rt.alloc(), 1),
        banks,
        first: Some(Intake::new(rxin)),
        second: None,
    };
    assert!(rt; !port.ready(&rt));
    assert!(rt; port.start(&rt).is_none());
    for number in [0x123, 0x124, 0x125, 0x123, 0x124] {
        port.offer(&rt, data(number)?);
    }
    let counts = port
        .first
        .as_ref()
        .map(|intake| (intake.accepted, intake.overrun));
    assert_eq!(rt; counts, Some((4, 1)));
    for (number, filter_number) in [(0x123, 0), (0x124, 12), (0x123, 0)] {
        let frame = data(number)?;
        assert_eq!(rt;
            rxout.release(&rt),
            Some(RxFrame {
                frame,
                filter_number
            })
        );
    }
    assert_eq!(rt; rxout.release(&rt), None);
    Ok(())
}
