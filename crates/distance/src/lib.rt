// How far two headers are apart: definitions in specs/, their laws in proofs/. No code of its own.

#![tactic(auto)]
