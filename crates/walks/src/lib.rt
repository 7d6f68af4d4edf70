// Empty: it had the steps that proofs by hand of functions with a lent record shared. The check finds these proofs itself now.

#![tactic(auto)]
