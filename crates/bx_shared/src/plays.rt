//! The rule of the seven words, and the names of the steps on them.
ghost use Rattle.bx_shared.specs.Shown.{IsKept};
ghost use Rattle.bx_shared.specs.Steps.{Looks, Claims, StoresHead, StoresBytes, Requests, Withdraws};
ghost use Rattle.bx_shared.specs.Steps.{Aborts, Asks, first_view, left_of, right_of, both_of, spent};
ghost use Rattle.bx_shared.specs.Closing.{Seals, ReadsLast};
ghost use Rattle.bx_shared.specs.BusSteps.{BusLooks, Schedules, Starts, ReadsHead, ReadsBytes, Completes, Fails, Reaps};

use crate::said::Said;
use crate::view::View;
use atomic_table::{Join, Play, Split, TableRule};

/// The words and the seats show one state of the mailbox core, to which accepted events led.
pub struct ShowsCore;

impl TableRule<Said, View, bool> for ShowsCore {
    ghost holds = { IsKept };

    ghost first = { first_view };
}

/// A look at the control word.
pub struct Look;

impl Play<Said, View> for Look {
    ghost then = { Looks };
}

/// A mailbox is claimed.
pub struct Claim;

impl Play<Said, View> for Claim {
    ghost then = { Claims };
}

/// The head of what is to be requested is stored.
pub struct StoreHead;

impl Play<Said, View> for StoreHead {
    ghost then = { StoresHead };
}

/// Its bytes are stored.
pub struct StoreBytes;

impl Play<Said, View> for StoreBytes {
    ghost then = { StoresBytes };
}

/// What was stored is requested.
pub struct Request;

impl Play<Said, View> for Request {
    ghost then = { Requests };
}

/// A claim is given back.
pub struct Withdraw;

impl Play<Said, View> for Withdraw {
    ghost then = { Withdraws };
}

/// A request that is not transmitting is aborted.
pub struct Abort;

impl Play<Said, View> for Abort {
    ghost then = { Aborts };
}

/// The abort of a request that is transmitting is asked.
pub struct Ask;

impl Play<Said, View> for Ask {
    ghost then = { Asks };
}

/// The bus's look at the control word.
pub struct BusLook;

impl Play<Said, View> for BusLook {
    ghost then = { BusLooks };
}

/// The next request is scheduled.
pub struct Schedule;

impl Play<Said, View> for Schedule {
    ghost then = { Schedules };
}

/// The scheduled request starts.
pub struct Start;

impl Play<Said, View> for Start {
    ghost then = { Starts };
}

/// The bus reads the head of a mailbox.
pub struct ReadHead;

impl Play<Said, View> for ReadHead {
    ghost then = { ReadsHead };
}

/// The bus reads the bytes of a mailbox.
pub struct ReadBytes;

impl Play<Said, View> for ReadBytes {
    ghost then = { ReadsBytes };
}

/// What was transmitted is sent.
pub struct Complete;

impl Play<Said, View> for Complete {
    ghost then = { Completes };
}

/// The transmission failed.
pub struct Fail;

impl Play<Said, View> for Fail {
    ghost then = { Fails };
}

/// What failed with its abort asked leaves.
pub struct Reap;

impl Play<Said, View> for Reap {
    ghost then = { Reaps };
}

/// The last look at the control word, by the seat that holds every place.
pub struct Seal;

impl Play<Said, View> for Seal {
    ghost then = { Seals };
}

/// That seat reads a payload word.
pub struct ReadLast;

impl Play<Said, View> for ReadLast {
    ghost then = { ReadsLast };
}

/// Cuts the first route's place off.
pub struct Cut;

impl Split<View> for Cut {
    ghost left = { left_of };

    ghost right = { right_of };
}

/// Puts the places of two seats together.
pub struct Paste;

impl Join<View> for Paste {
    ghost both = { both_of };

    ghost spent = { spent };
}
