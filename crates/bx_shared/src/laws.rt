//! Laws of the shared words.
ghost use Rattle.bx_shared.specs.Laws.{EachStepIsAnEvent, ShowsOneState};

/// Each step on the words is the event of the mailbox core of its name, which is not refused, or changes no state of
/// the core. A claim, a request, a withdrawal, an abort, and the bus's schedule, start, complete, fail and reap are the
/// former; a look, an exchange that finds another word, the stores and reads of payload words, and the dividing and
/// joining of seats the latter. After each of them the rule holds again.
pub fn each_step_is_an_event()
    ensures { EachStepIsAnEvent }
{}

/// The words and the views of the nine places, the bus's and each route's, show one state of the mailbox core and no
/// other: two states that keep the core law, and that both are shown and known so, are equal.
pub fn one_state_is_shown()
    ensures { ShowsOneState }
{}
