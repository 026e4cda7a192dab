//! Laws of critical paths. These functions do nothing: each is called for what it ensures.
ghost use Rattle.critical_path.specs.Laws.{HaveOneHolder, HaveOnePath, SomebodyHolds};

/// Somebody holds each thread up at each instant.
pub fn somebody_holds()
    ensures { SomebodyHolds }
{}

/// At each instant one holder at most holds a thread up.
pub fn one_holder()
    ensures { HaveOneHolder }
{}

/// A thread has one critical path at most over a window.
pub fn one_path()
    ensures { HaveOnePath }
{}
