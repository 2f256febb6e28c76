// The bench figures that are proved, as a theorem about the definitions that the contracts cite.
// There is no code here: crate `figures_run` asks the code for all the figures.
#![tactic(auto)]
