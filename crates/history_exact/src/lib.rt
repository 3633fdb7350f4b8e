#![tactic(auto)]

// Theory: when a call must do what. Everything is in specs/.
