// Document 01 as definitions, the statements of the theorems about them, and values that pin how the document is read (specs/; the values are proved in proofs/).
// There is no code here: the contracts of the other crates cite it.
#![tactic(auto)]
