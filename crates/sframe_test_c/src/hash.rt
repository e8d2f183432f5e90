// SPDX-License-Identifier: MIT
// Hashes and derived keys.
ghost use Rattle.std.specs.Prelude.{◌≡◌, [], ◌++◌, length, drop};
ghost use Rattle.sha2_common.specs.Sha2.{hash};
ghost use Rattle.sha2_common.specs.Sizes.{sha256, sha512};
ghost use Rattle.sha2_common.specs.Limits.{maximum};
ghost use Rattle.hmac.specs.Hmac.{hmac};
ghost use Rattle.hmac.specs.Hkdf.{extract, expand, limit};
ghost use Rattle.hmac.specs.Limits.{largest};
ghost use Rattle.sframe_test.specs.Judged.{Judged, HashTakes, HmacTakes, HkdfTakes};

use sframe_test::hash::{digest as digest_of, key, tag_sha256, tag_sha512};
use sframe_test::number;
use sha256::Sha256;
use sha512::Sha512;

#[unsafe(no_mangle)]
pub extern "C" fn sframe_test_sha256(
    message: &[u8],
    first: usize,
    second: usize,
    digest: &mut [u8],
) -> u32
    ensures { Judged 0 (HashTakes maximum 32 message.now first second digest.old) (digest.new ≡ hash sha256 message.now ++ drop 32 digest.old) (digest.new ≡ digest.old) result }
{
    number(digest_of::<Sha256, 64, 32>(message, first, second, digest))
}

#[unsafe(no_mangle)]
pub extern "C" fn sframe_test_hmac_sha256(
    key: &[u8],
    message: &[u8],
    first: usize,
    second: usize,
    tag: &mut [u8],
) -> u32
    ensures { Judged 0 (HmacTakes largest 32 key.now message.now first second tag.old) (tag.new ≡ hmac sha256 key.now message.now ++ drop 32 tag.old) (tag.new ≡ tag.old) result }
{
    number(tag_sha256(key, message, first, second, tag))
}

// HKDF-Extract with no salt, then HKDF-Expand to out's length, which is at most 8160.
#[unsafe(no_mangle)]
pub extern "C" fn sframe_test_hkdf_sha256(ikm: &[u8], info: &[u8], out: &mut [u8]) -> u32
    ensures { Judged 0 (HkdfTakes largest (limit sha256) ikm.now info.now out.old) (out.new ≡ expand sha256 (extract sha256 [] ikm.now) info.now (length out.old)) (out.new ≡ out.old) result }
{
    number(key::<Sha256, 64, 32>(ikm, info, out))
}

#[unsafe(no_mangle)]
pub extern "C" fn sframe_test_sha512(
    message: &[u8],
    first: usize,
    second: usize,
    digest: &mut [u8],
) -> u32
    ensures { Judged 0 (HashTakes maximum 64 message.now first second digest.old) (digest.new ≡ hash sha512 message.now ++ drop 64 digest.old) (digest.new ≡ digest.old) result }
{
    number(digest_of::<Sha512, 128, 64>(message, first, second, digest))
}

#[unsafe(no_mangle)]
pub extern "C" fn sframe_test_hmac_sha512(
    key: &[u8],
    message: &[u8],
    first: usize,
    second: usize,
    tag: &mut [u8],
) -> u32
    ensures { Judged 0 (HmacTakes largest 64 key.now message.now first second tag.old) (tag.new ≡ hmac sha512 key.now message.now ++ drop 64 tag.old) (tag.new ≡ tag.old) result }
{
    number(tag_sha512(key, message, first, second, tag))
}

// HKDF-Extract with no salt, then HKDF-Expand to out's length, which is at most 16320.
#[unsafe(no_mangle)]
pub extern "C" fn sframe_test_hkdf_sha512(ikm: &[u8], info: &[u8], out: &mut [u8]) -> u32
    ensures { Judged 0 (HkdfTakes largest (limit sha512) ikm.now info.now out.old) (out.new ≡ expand sha512 (extract sha512 [] ikm.now) info.now (length out.old)) (out.new ≡ out.old) result }
{
    number(key::<Sha512, 128, 64>(ikm, info, out))
}
