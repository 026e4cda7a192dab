//! Laws of the forest. These functions do nothing: each is called for what it ensures.
ghost use Rattle.host_tree.specs.Order.{AllAreInOrder, HaveOneForest, PairsDetermineParents};

/// The roots are, ascending, the hosts that no earlier root's tree holds, and each tree grows over such hosts alone.
pub fn trees_in_order()
    ensures { AllAreInOrder }
{}

/// Fits have one forest, and which pairs of hosts have a map decides who is whose parent.
pub fn one_forest()
    ensures pairs { PairsDetermineParents }
    ensures one { HaveOneForest }
{}
