//! Laws of the merge. These functions do nothing: each is called for what it ensures.
ghost use Rattle.host_merge.specs.Kept.{HaveOneMerge, MergesKeepOrder, MessagesAreAmong, MessagesGoBetween, NoTreePairIsInverted, OneHostStandsAlone, SendsComeFirst};

/// A forest and the lists of its hosts have one merge.
pub fn one_merge()
    ensures { HaveOneMerge }
{}

/// The merge of one host is its list, with its own times as keys.
pub fn one_host_stands_alone()
    ensures { OneHostStandsAlone }
{}

/// A merge has the events of each host in their order, and no others.
pub fn merges_keep_order()
    ensures { MergesKeepOrder }
{}

/// The messages of some hosts go between them, and stand in each merge that keeps their lists.
pub fn messages_are_theirs()
    ensures between { MessagesGoBetween }
    ensures among { MessagesAreAmong }
{}

/// By a merge over the forest of its own messages, sends come first between a host and its parent, and no message there is
/// inverted.
pub fn sends_come_first()
    ensures places { SendsComeFirst }
    ensures inverted { NoTreePairIsInverted }
{}
