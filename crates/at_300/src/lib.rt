// At 300 bps nothing changed with the sections: specs/ has the statements of one section and says so, proofs/ shows that it is so. No code of its own.

#![tactic(auto)]
