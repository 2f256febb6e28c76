// The planner's demands, as theorems about the definitions that the contracts of crate `stripe` cite.
// There is no code here: an edit of the code then rechecks the code alone.
#![tactic(auto)]
