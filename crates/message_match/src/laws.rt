//! Laws on messages.
ghost use Rattle.message_match.specs.Messages.{HaveOneAnswer};

/// What `matches` gives is determined by the hosts' events: no two different answers are right. This
/// does nothing when it is run.
pub fn one_answer()
    ensures { HaveOneAnswer }
{}
