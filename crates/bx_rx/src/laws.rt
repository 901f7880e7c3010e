//! Laws of the definitions that the contracts cite. Each function does nothing; its contract is the law,
//! and a proof in a crate above calls it to learn that.
ghost use Rattle.bx_rx.specs.Banks.{OneChosen};

/// Of the filters of active banks that match a frame, at most one is the chosen one (RM0008, bxCAN,
/// "Filter priority rules"). So `Banks::find` has one answer for a frame.
pub fn one_filter_is_chosen()
    ensures { OneChosen }
{}
