// The sample cards of 01 as sentences on the definitions, in a crate of their own: there is no code to them.
#![tactic(auto)]
