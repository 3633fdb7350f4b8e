#![tactic(auto)]

// Laws about the definitions of `model`, for code and theory alike: specs/. There is no code here.
