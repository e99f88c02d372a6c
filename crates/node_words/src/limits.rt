// How many nodes a search may keep, how many steps a plan found may have, and how many words the longest list of nodes has.

pub const MAX_NODES: usize = 1024;

// One fewer than nodes.
pub const MAX_FOUND: usize = MAX_NODES - 1;

// Four for each node.
pub const LIST_WORDS: usize = 4 * MAX_NODES;
