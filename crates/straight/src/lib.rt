// No function: the rule that drops points on a straight line (document 02, a)) and what is true of it stand in specs/.
#![tactic(auto)]
