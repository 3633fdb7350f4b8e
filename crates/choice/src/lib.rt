#![tactic(auto)]

// No code: a choice by a test, and its laws, for every crate above, in `specs/`.
