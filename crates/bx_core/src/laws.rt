//! Laws of the mailbox core.
ghost use Rattle.bx_core.specs.Law.{LawAfterAll, NextGoes};

/// After every list of events, of up to eight routes and with either priority, the core law holds: a
/// route's numbers rise; each is in exactly one of requested and done, aborted, reaped or still
/// waiting, with its frame; no mailbox is used twice; and at most one request is scheduled or
/// transmitting. By order of requests (TXFP set), moreover, what is done was requested before all that
/// waits, and only the oldest request is ever scheduled or transmitting.
pub fn law_after_all()
    ensures { LawAfterAll }
{}

/// Where requests wait and none is scheduled or transmitting, the next one may be scheduled: by order of
/// requests the oldest; by identifier that of the lowest key, and of equal keys that in the lowest
/// mailbox.
pub fn next_goes()
    ensures { NextGoes }
{}
