#![tactic(auto)]

// Theory: document 02, L4, keys in any order, and doubles. Everything is in specs/.
