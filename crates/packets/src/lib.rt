// The packet rules of document 01 for a port that has not opened, as definitions over a list of bytes. There is no code here.
#![tactic(auto)]
