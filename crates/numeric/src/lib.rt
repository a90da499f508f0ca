// The base characters of Compact Numeric ASCII (001, 4.3): Table 4 in specs/, and what reading rests on in proofs/. No code of its own.

#![tactic(auto)]
