#![tactic(auto)]

// Demand 2 of the work order: every history of calls and foreign steps from a preparation or a salvage. Theorems only:
// specs/.
