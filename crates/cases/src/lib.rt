// The computed cases of the definitions, in specs. They stand apart from the maps, so that a change of a proof there does not compute them again.

#![tactic(auto)]
