// What a patch is good for, as theorems over the assembler's contract: specs/Rising.antt, Taken.antt, Again.antt, Pieces.antt, Listed.antt.
#![tactic(auto)]
