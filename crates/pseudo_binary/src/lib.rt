// Compact Pseudo Binary (001, 4.2): its tables and what our writer builds of a text in specs/, their theorems in proofs/. No code of its own: the
// crates over it read and write.

#![tactic(auto)]
