#![tactic(auto)]

// Wrong builds, each of which fails what crate `pinned` asks of a build. Theorems only: specs/.
