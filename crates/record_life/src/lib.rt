// SPDX-License-Identifier: MIT
// The inputs of AES over the life of a sending record: stated in specs/, proved in proofs/. There is no code here.
#![tactic(auto)]
