// Definitions by offset for the question whether an owner touches a name. They are in specs/.

#![tactic(auto)]
