//! Laws of hosts on one clock. These functions do nothing: each is called for what it ensures.
ghost use Rattle.host_sync.specs.Laws.{DecodedAreSyncable, HaveOneAnswer, SyncedKeepOrder, SyncedReadAgain, SyncedSendsFirst};

/// What is decoded of hosts, within the limits of a run, can be brought to one clock.
pub fn decoded_hosts()
    ensures { DecodedAreSyncable }
{}

/// The merge has each host's events in their order, and no others.
pub fn synced_keep_order()
    ensures { SyncedKeepOrder }
{}

/// Between a host and its parent each message is sent, in the merge, before it is received, and none is inverted.
pub fn synced_sends_first()
    ensures { SyncedSendsFirst }
{}

/// Hosts and a drift have one answer, but for the points by which lines and contradictions are told.
pub fn one_answer()
    ensures { HaveOneAnswer }
{}

/// What is written of the merge of decoded hosts is read again as the list that it is.
pub fn synced_read_again()
    ensures { SyncedReadAgain }
{}
