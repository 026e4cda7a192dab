//! What holds of all merges. This function does nothing: it is called for what it ensures.
ghost use Rattle.state_times.specs.StandsFor.{SetFills, TimesFill};

/// The times in which an attribute is busy, is 0 and has no value fill the window, and so do those in which it has one
/// and has none.
pub fn times_fill()
    ensures busy { TimesFill }
    ensures set { SetFills }
{}
