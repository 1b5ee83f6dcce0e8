// Meters (document 02, W7): what a call counts, what a history leaves on the meters, and the share that is held back. Defined in specs/ and proved in proofs/.
#![tactic(auto)]
