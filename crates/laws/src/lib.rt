// The theorems about the definitions of `meaning`, and the integer kit and the laws that they and the code's proofs rest on (proofs/). There is no code here.
#![tactic(auto)]
