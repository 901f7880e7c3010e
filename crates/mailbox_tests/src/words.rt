//! The packed words of three mailboxes: worked steps and payloads.

use bx_words::{
    fail_mask, key, lane, lane_mask, least, oldest, pack, unpack, with_abort, with_claim,
    with_request, with_schedule, with_start,
};
use can_frame::{Frame, FrameError, Id};
use std::test::Fail;

#[test]
fn two_routes_request_and_one_is_aborted(rt: HostRuntime) {
    assert_eq!(rt; with_claim(0, 0, 2), 0x0000_0041);
    assert_eq!(rt; with_request(0x0000_0041, 0, 2), 0x0300_0043);
    assert_eq!(rt; with_claim(0x0300_0043, 1, 5), 0x0300_A143);
    assert_eq!(rt; with_request(0x0300_A143, 1, 5), 0x0600_A343);
    assert_eq!(rt; lane(0x0600_A343, 1), 0xA3);
    assert_eq!(rt; oldest(0x0600_A343), Some(0));
    assert_eq!(rt; with_schedule(0x0600_A343, 0), 0x0600_A347);
    assert_eq!(rt; with_start(0x0600_A347, 0), 0x0600_A34F);
    assert_eq!(rt; with_abort(0x0600_A34F, 0), 0x0600_A35F);
    assert_eq!(rt; 0x0600_A35F & fail_mask(0), 0x0600_A357);
    assert_eq!(rt; 0x0600_A357 & lane_mask(0), 0x0600_A300);
    assert_eq!(rt; oldest(0x0600_A300), Some(1));
    assert_eq!(rt; oldest(0), None);
}

#[test]
fn a_claim_is_withdrawn(rt: HostRuntime) {
    assert_eq!(rt; with_claim(0, 0, 3), 0x0000_0061);
    assert_eq!(rt; 0x0000_0061 & lane_mask(0), 0x0000_0000);
}

// An order bit is 0 where the lower of its two mailboxes has the older request.
#[test]
fn one_route_requests_in_each_mailbox(rt: HostRuntime) {
    assert_eq!(rt; with_claim(0, 0, 0), 0x0000_0001);
    assert_eq!(rt; with_request(0x0000_0001, 0, 0), 0x0300_0003);
    assert_eq!(rt; with_claim(0x0300_0003, 1, 0), 0x0300_0103);
    assert_eq!(rt; with_request(0x0300_0103, 1, 0), 0x0600_0303);
    assert_eq!(rt; with_claim(0x0600_0303, 2, 0), 0x0601_0303);
    assert_eq!(rt; with_request(0x0601_0303, 2, 0), 0x0003_0303);
    assert_eq!(rt; oldest(0x0003_0303), Some(0));
}

// The oldest of three is sent, and the fourth request takes its mailbox: the second request is then the oldest.
#[test]
fn a_mailbox_is_used_again_after_it_was_sent(rt: HostRuntime) {
    assert_eq!(rt; with_schedule(0x0003_0303, 0), 0x0003_0307);
    assert_eq!(rt; with_start(0x0003_0307, 0), 0x0003_030F);
    assert_eq!(rt; 0x0003_030F & lane_mask(0), 0x0003_0300);
    assert_eq!(rt; with_claim(0x0003_0300, 0, 0), 0x0003_0301);
    assert_eq!(rt; with_request(0x0003_0301, 0, 0), 0x0303_0303);
    assert_eq!(rt; oldest(0x0303_0303), Some(1));
}

#[test]
fn requests_are_counted_where_priority_is_by_identifier(rt: HostRuntime) {
    assert_eq!(rt; with_claim(0x0800_0000, 0, 2), 0x0800_0041);
    assert_eq!(rt; with_request(0x0800_0041, 0, 2), 0x1B00_0043);
    assert_eq!(rt; with_claim(0x1B00_0043, 1, 5), 0x1B00_A143);
    assert_eq!(rt; with_request(0x1B00_A143, 1, 5), 0x2E00_A343);
    // the lower key goes first, and of equal ones the lower mailbox; no request stands in mailbox 2
    for (keys, mailbox) in [
        ([7, 6, 0], Some(1)),
        ([6, 7, 0], Some(0)),
        ([6, 6, 0], Some(0)),
    ] {
        assert_eq!(rt; least(0x2E00_A343, keys), mailbox);
    }
    assert_eq!(rt; least(0x0800_0041, [0, 0, 0]), None);
}

fn eight_bytes() -> Result<Frame, FrameError> {
    Frame::with_bytes(Id::extended(0x1FFF_FFFF)?, &[1, 2, 3, 4, 5, 6, 7, 8])
}

#[test]
fn payloads_are_packed_and_unpacked(rt: HostRuntime) -> Result<(), Fail> {
    let none = Frame::with_bytes(Id::standard(0)?, &[])?;
    assert!(rt; pack(&none, 1) == (0x0000_0008_0000_0000, 0));
    let eight = eight_bytes()?;
    let (head, bytes) = pack(&eight, 16_777_215);
    assert_eq!(rt; head, 0x07FF_FFFC_3FFF_FFFF);
    assert_eq!(rt; bytes, 0x0807_0605_0403_0201);
    let (frame, number) = unpack(head, bytes);
    assert!(rt; frame == eight);
    assert_eq!(rt; number, 16_777_215);
    Ok(())
}

#[test]
fn keys_are_those_of_the_frames(rt: HostRuntime) -> Result<(), Fail> {
    let standard = Id::standard(0x123)?;
    for (frame, wanted) in [
        (Frame::with_bytes(standard, &[])?, 0x2460_0000),
        (Frame::remote(standard, 0)?, 0x2470_0000),
        (
            Frame::with_bytes(Id::extended(0x1ABC_DEF0)?, &[])?,
            0xD5F9_BDE0u32,
        ),
    ] {
        let (head, _) = pack(&frame, 1);
        assert_eq!(rt; key(head), wanted);
    }
    Ok(())
}
