#![tactic(auto)]

// Document 02, L6: what a salvage does and leaves, and what holds of histories from there on. Theorems only: specs/.
