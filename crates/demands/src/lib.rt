// What the user was promised: specs/ has the three demands as statements, sentence by sentence, and the table of edges; proofs/ shows that they hold. No code
// of its own.

#![tactic(auto)]
