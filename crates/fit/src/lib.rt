// The layers fit: what extraction writes passes binding's checks. The theorems stand in specs/; there is no function here.
#![tactic(auto)]
