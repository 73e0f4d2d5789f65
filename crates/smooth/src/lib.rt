// No function: of a graph that passes checks 1 to 7 no contour runs back on itself, and what that makes of dropping points on a straight line. It stands in
// specs/.
#![tactic(auto)]
