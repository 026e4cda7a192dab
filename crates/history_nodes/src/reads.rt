//! A count of nodes that were read.
ghost use Rattle.std.specs.Prelude.{◌≡◌, ◌+◌, ◌<◌, ◌^◌};

use std::marker::Model;

/// How many nodes were read for their records. Contracts see the count.
#[derive(Debug, Drop)]
pub struct Reads {
    nodes: u64,
}

impl Model for Reads {
    ghost use Rattle.std.specs.Prelude.{ℕ};

    ghost Value = { ℕ };

    ghost view = { λ r. r.nodes };
}

impl Reads {
    /// No node was read yet.
    pub fn new() -> Reads
        ensures { result ≡ 0 }
    {
        Reads { nodes: 0 }
    }

    /// How many nodes were read.
    pub fn count(&self) -> u64
        ensures { result ≡ self.now }
    {
        self.nodes
    }

    // Counts one more.
    pub(crate) fn rise(&mut self)
        requires { self.old + 1 < 2 ^ 64 }
        ensures { self.new ≡ self.old + 1 }
    {
        self.nodes += 1;
    }
}
