//! Laws on the requests of disks.
ghost use Rattle.disk_requests.specs.Devices.{HaveOneAnswer};
ghost use Rattle.disk_requests.specs.Places.{CompletionsPair, IssuesPair};

/// What `requests` tells is determined by the merge: no two different answers are right. This does
/// nothing when it is run.
pub fn one_answer()
    ensures { HaveOneAnswer }
{}

/// What counts as a request is a pair of places: an issue and a later completion of one host, device
/// and first sector, where no issue or completion of these stands between. This does nothing when it
/// is run.
pub fn pairs_of_places()
    ensures completions { CompletionsPair }
    ensures issues { IssuesPair }
{}
