// What is written into a lent buffer: the definitions and laws stand in specs/; there is no function here.
#![tactic(auto)]
