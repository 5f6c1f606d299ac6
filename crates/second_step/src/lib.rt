// Theorems alone: why what an accepted visit map shows stops at one step of training (R17.4).
#![tactic(auto)]
