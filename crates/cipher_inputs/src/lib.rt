// SPDX-License-Identifier: MIT
// The inputs of AES in sealing: what is proved of them is stated in specs/ and proved in proofs/. There is no code here.
#![tactic(auto)]
