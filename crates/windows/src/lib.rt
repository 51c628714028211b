// What all tiles of a window give together, that it follows from the calls' contracts, and that tiles can cover any window. There is no code here.
#![tactic(auto)]
