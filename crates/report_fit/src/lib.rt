// Reports fit extraction and binding: every contour is reported, and the areas behind add up. The theorems stand in specs/; there is no function here.
#![tactic(auto)]
