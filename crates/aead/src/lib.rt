// SPDX-License-Identifier: MIT
// AEAD encryption and decryption of the five suites: the definitions are in specs/, their laws in proofs/. There is no code here.
#![tactic(auto)]
