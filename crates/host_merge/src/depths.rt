//! How deep hosts stand in their trees.
ghost use Rattle.std.specs.Prelude.{◌<◌, IfOk, length};
ghost use Rattle.host_merge.specs.Depths.{AreDepths};
ghost use Rattle.host_tree.specs.Rooted.{IsAtDepth, LeadToRoots};

use host_tree::{Parent, Parents};
use std::alloc::Global;
use trace_types::OutOfMemory;

/// How many parents stand above each host.
pub fn depths_of(alloc: Global, forest: &Parents) -> Result<Vec<usize>, OutOfMemory>
    requires { LeadToRoots forest.now.items }
    ensures { IfOk result (λ depths. AreDepths forest.now.items depths.items) }
{
    let mut depths = Vec::new(alloc);
    for host in 0..forest.len() {
        depths.push(depth_of(forest, host))?;
    }
    Ok(depths)
}

fn depth_of(forest: &Parents, host: usize) -> usize
    requires rooted { LeadToRoots forest.now.items }
    requires host { host < length forest.now.items }
    ensures { IsAtDepth forest.now.items result host }
{
    let mut at = host;
    let mut depth = 0;
    while let Parent::Child { parent, .. } = forest[at] {
        at = parent as usize;
        depth += 1;
    }
    depth
}
