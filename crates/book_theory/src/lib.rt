#![tactic(auto)]

// The setpoint book over histories (document 02, L2): lease calls, foreign steps and book calls together. Theorems
// only: specs/.
