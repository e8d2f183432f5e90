// SPDX-License-Identifier: MIT
// Counter mode and GCM (SP 800-38D) over AES, for a nonce of 12 bytes and a tag of 16: the definitions and their laws.
#![tactic(auto)]

use aes::BLOCK;

// The bytes of a tag.
pub const TAG: usize = BLOCK;
