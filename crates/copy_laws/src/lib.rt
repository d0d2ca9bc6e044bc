// What holds of the whole-path copy after every list of calls: definitions in specs/, theorems in proofs/.
#![tactic(auto)]
