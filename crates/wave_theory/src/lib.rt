#![tactic(auto)]

// The theorems of the waveform (document 02, L11), about its definitions alone: specs/Theorems.antt. No code is named
// here.
