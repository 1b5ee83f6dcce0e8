// The index beside the table (document 02, W6): what it is, and that a box with it does what its table does. It is defined in specs/ and proved in proofs/.
#![tactic(auto)]
