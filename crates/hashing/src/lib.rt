// No code: specs/ has the definitions that the hashes of FIPS 180-4 share, over the size of a block and the step from block to
// block, and proofs/ the laws about them. The hashes are in the crates above, which say what differs. What they do
// alike stands in each: a function for both would be public, so without a `requires`, and theirs ask for a whole block.
#![tactic(auto)]
