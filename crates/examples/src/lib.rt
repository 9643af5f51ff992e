// The starred examples of document 01: one table under one proved statement, in specs/Table.antt.
#![tactic(auto)]
