// What is proved of the rules: theorems, no code.
#![tactic(auto)]
