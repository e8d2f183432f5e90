// SPDX-License-Identifier: MIT
// HMAC, RFC 2104, and HKDF, RFC 5869, over a hash of the SHA-2 family.
#![tactic(auto)]

mod hkdf;
mod keyed;

pub use hkdf::{hkdf_expand, hkdf_extract};
pub use keyed::{Hmac, block_key, hmac_of, masked_block};
use sha256::Sha256;
use sha512::Sha512;

pub type HmacSha256 = Hmac<Sha256, 64, 32>;

pub type HmacSha512 = Hmac<Sha512, 128, 64>;

// The most bytes of a key, of a text that is given whole, and of HKDF's info.
pub const LARGEST: usize = 0x8000_0000;

// The bytes that the key is masked with, for the inner and for the outer hash.
pub const IPAD: u8 = 0x36;

pub const OPAD: u8 = 0x5c;
