// The laws of document 02 that customers may cite, as theorems over the contracts of what users call: a file of specs/ for each wish.
#![tactic(auto)]
