// Plans of document 02, Item 7, computed in proofs/. There is no code here.
#![tactic(auto)]
