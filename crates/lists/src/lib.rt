// Definitions on lists that the library lacks, and their laws: all in specs/.
#![tactic(auto)]
