// No code: specs/Demand.antt says what holds of every call, every buffer and every list of calls, and proofs/ proves it.
#![tactic(auto)]
