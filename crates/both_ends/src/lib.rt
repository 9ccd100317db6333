// Both ends of the line, an exchange and a simulated meter: definitions in specs/ and laws in proofs/. There is no code here.
#![tactic(auto)]
