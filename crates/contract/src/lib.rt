// What the survey call promises (specs/), apart from the call: whoever speaks of calls needs no more than that. There is no code here.
#![tactic(auto)]
