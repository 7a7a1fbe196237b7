// Lists of calls: demand 3. There is no code here: specs/ says what a list of calls is and what is asked of it, proofs/Demand3 has the
// theorem. Crate caller makes such lists.
#![tactic(auto)]
