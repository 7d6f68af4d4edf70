// What the program keeps while it walks over a schedule: definitions, and that it follows the schedule's meaning; no code.

#![tactic(auto)]
