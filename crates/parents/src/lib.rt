// No function: the contour of the nearest edge under a hole's anchor has its owner when binding comes to the hole, so that 12 means that no edge lies under. It
// stands in specs/.
#![tactic(auto)]
