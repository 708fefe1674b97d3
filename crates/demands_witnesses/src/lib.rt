// Computed histories under the demands: their premises can be met. There is no code here.
#![tactic(auto)]
