// Runs of calls on a plan and a shelf, and what their foot adds up to: definitions and theorems, no code.
#![tactic(auto)]
