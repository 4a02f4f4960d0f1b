// Demand 3: what a walk over a table that passed the check meets. Definitions and theorems only.
#![tactic(auto)]
