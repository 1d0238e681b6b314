// No code: the definitions of a swap, by which a target is taken back, which its promise is equations
// with, and the laws of these definitions, stand in specs/.
#![tactic(auto)]
