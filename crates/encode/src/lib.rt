// The bytes of a tree, and that they read back. Definitions and theorems only.
#![tactic(auto)]
