// The three demands on the public calls, over bytes: definitions and theorems, no code.
#![tactic(auto)]
