//! How a segment stands after some of its events.
ghost use Rattle.std.specs.Prelude.{◌≡◌};
ghost use Rattle.message_match.specs.Standings.{is_ambiguous, message_in, received, sent_again};

use crate::message::Message;

/// One event: its own time in ns, its host, and its place in the host's list.
#[derive(Clone, Copy)]
pub struct Placed {
    pub time: u64,
    pub host: u32,
    pub place: u32,
}

/// What is known of a segment that was sent.
#[derive(Clone, Copy)]
pub enum Standing {
    /// One host sent it, first so, and nobody received it.
    Sent(Placed),
    /// Several hosts sent it, and nobody received it.
    SentBySeveral,
    Matched(Message),
    Ambiguous,
}

impl Standing {
    /// How it stands after one more send, where nothing was received yet.
    pub fn sent_again(self, send: Placed) -> Standing
        ensures { result ≡ sent_again self send }
    {
        match self {
            Standing::Sent(first) if first.host != send.host => Standing::SentBySeveral,
            standing => standing,
        }
    }

    /// How it stands after one more receive.
    pub fn received(self, receive: Placed) -> Standing
        ensures { result ≡ received self receive }
    {
        match self {
            Standing::Sent(first) if first.host != receive.host => Standing::Matched(Message {
                sent: first.time,
                received: receive.time,
                from: first.host,
                send: first.place,
                to: receive.host,
                receive: receive.place,
            }),
            Standing::Matched(message) if message.to == receive.host => self,
            _ => Standing::Ambiguous,
        }
    }

    /// Its message, if it has one.
    pub fn message(self) -> Option<Message>
        ensures { result ≡ message_in self }
    {
        match self {
            Standing::Matched(message) => Some(message),
            _ => None,
        }
    }

    /// Whether it was sent and received, and has no message.
    pub fn is_ambiguous(self) -> bool
        ensures { result ≡ is_ambiguous self }
    {
        matches!(&self, Standing::Ambiguous)
    }
}
