#![tactic(auto)]

// Document 02, L8: demand 2 over preparations, if no boot number is used twice. Theorems only: specs/.
