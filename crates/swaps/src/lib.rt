#![tactic(auto)]

// Which steps of a trace may be swapped: document 02, L7. Theorems only: specs/.
