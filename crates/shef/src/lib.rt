// Compact SHEF Alphanumeric ASCII (001, 4.4): Table 6 in specs/, and what reading rests on in proofs/. No code of its own.

#![tactic(auto)]
