// The third demand: on a graph that passes the checks and comes by turns no walk is refused. It stands in specs/; there is no function here.
#![tactic(auto)]
