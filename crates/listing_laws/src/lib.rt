// What the stores of a reading list stand for, and why its items are the definition's readings: all in specs/.
#![tactic(auto)]
