#![tactic(auto)]

// Document 02, L13: the crew at work looks one after another. Theorems only: specs/.
