#![tactic(auto)]

// Demand 3 of the work order: the crew's rounds, and that nobody waits forever. Theorems only: specs/.
