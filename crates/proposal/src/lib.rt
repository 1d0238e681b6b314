// No code: the definitions of repair by a proposed plan and of our planner, which their promises are
// equations with, and the laws of these definitions, stand in specs/.
#![tactic(auto)]
