#![tactic(auto)]

// No code: the layout of replies as words, and that words lose nothing, in specs/.
