#![tactic(auto)]

// No code: document 01 as definitions over the types of crate `types`, in specs/.
