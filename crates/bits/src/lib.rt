// Bits of numbers and of rows of bytes, ways to turn them over, and what all rows share: definitions in specs/, their laws in proofs/. No code of its own.

#![tactic(auto)]
