// The rules: definitions and worked cases, no code.
#![tactic(auto)]
