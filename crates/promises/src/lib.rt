// No code: the theorems of the whole stand in specs/, stated over the definitions that the public
// calls are proved equal to.
#![tactic(auto)]
