//! What holds of the folders of all runs. This does nothing: it is called for what it ensures.
ghost use Rattle.std.specs.Prelude.{◌≤◌, ℕ, List};
ghost use Rattle.trace_gen.specs.declared.events.MadeEvent.{MadeEvent};
ghost use Rattle.trace_gen.specs.Folders.{AreFolders, folders};

/// Every host of a run has its two files, and there are no others.
pub fn each_host()
    ensures { (hosts : ℕ) (events : List MadeEvent) → hosts ≤ 64 → AreFolders hosts events (folders hosts events) }
{}
