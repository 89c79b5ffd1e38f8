// The theorems from a table file, of either edition, to a grade. They have no code: specs/ states them, of the calls for C.
#![tactic(auto)]
