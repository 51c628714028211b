// Laws alone: the rules' stations, cuttings of S's square, pairs of calls for the statements on two, and tiles for those on whole windows, worked on the definitions by computing. They stand apart from the definitions since no other
// crate needs them, and what is computed beside a definition is computed again at each edit of it.
#![tactic(auto)]
