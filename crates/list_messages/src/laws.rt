//! Laws of messages in a merge. These functions do nothing: each is called for what it ensures.
ghost use Rattle.list_messages.specs.Places.{MessagesAtEvents};

/// In a merge that keeps the hosts' lists, their messages are sent and received at such events, and no receive stands twice.
pub fn messages_at_events()
    ensures { MessagesAtEvents }
{}
