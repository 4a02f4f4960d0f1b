// What the library answers can be packed for C, and comes out of it again. Theorems only.
#![tactic(auto)]
