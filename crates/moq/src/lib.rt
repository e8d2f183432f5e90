// SPDX-License-Identifier: MIT
// Lists of calls on one track store: what holds of every list is stated in specs/ and proved in proofs/. There is no code here.
#![tactic(auto)]
