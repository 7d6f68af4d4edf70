// What a schedule means: definitions and theorems over the net of `protocol`; no code.

#![tactic(auto)]
