// What every call needs and no code: choices, tables, the loop that fills a list, and the order of
// refusals, each with its laws.
#![tactic(auto)]
