// What a rename message that was read gives to add its epoch: the count of its names, the same on every unit. No code.

#![tactic(auto)]
