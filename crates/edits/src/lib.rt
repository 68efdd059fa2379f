// What small edits of the tables can move, as sentences on the definitions, in a crate of their own: there is no code to them.
#![tactic(auto)]
