// What the lent stores stand for: definitions and laws in specs/, which the passes and the reads share. It has no code.
#![tactic(auto)]
