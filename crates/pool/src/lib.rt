// No code: the definitions of the pool's calls, which their promises are equations with, and the
// laws of these definitions, stand in specs/.
#![tactic(auto)]
