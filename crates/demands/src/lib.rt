// What the inspector signs: the three demands of document 00 over histories of calls, as theorems. There is no code here.
#![tactic(auto)]
