// The three demands, as theorems over the contracts of what users call: proofs/Laws/Demand1.antt, Demand2.antt, Demand3.antt; Scans.antt has them for the plug recorder.
#![tactic(auto)]
