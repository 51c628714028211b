// Two cuttings of one ring: which points a panel covers, and that cuttings which cover the same points show the same. There is no code here.
#![tactic(auto)]
