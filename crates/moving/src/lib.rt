// No code: the definitions of a move between editions, which its promise is an equation with, and the
// laws of these definitions, stand in specs/.
#![tactic(auto)]
