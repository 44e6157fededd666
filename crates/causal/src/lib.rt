// Figure 7, and demands 2 and 3 on the table as plain numbers: definitions and theorems, no code.
#![tactic(auto)]
