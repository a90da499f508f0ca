// What noise on an empty channel gives: specs/ says how many of all words lie near a valid header, proofs/ shows that it is so. No code of its own.

#![tactic(auto)]
