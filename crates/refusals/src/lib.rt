// What is true of every file that reading refuses: definitions and theorems, and no code (FORMAT: Refusals).
#![tactic(auto)]
