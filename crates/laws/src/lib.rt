// Mathematics that every layer cites: integers, signs, lists, searches. It stands in specs/; there is no function here.
#![tactic(auto)]
