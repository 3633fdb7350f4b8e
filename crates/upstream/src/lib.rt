#![tactic(auto)]

// Upstream's contracts as records, of any build: what upstream asks and ensures, what holds here, and that this implies
// it; and what upstream's contracts leave open. Theorems only: specs/. docs/CONTRACTS.md shows the records.
