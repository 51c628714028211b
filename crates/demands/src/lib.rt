// What the demands say of calls of the survey, and that they follow from the survey's contract. There is no code here.
#![tactic(auto)]
