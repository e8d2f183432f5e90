// SPDX-License-Identifier: MIT
// AES, counter mode, GHASH and GCM.
ghost use Rattle.std.specs.Prelude.{◌≡◌, ◌++◌, ◌+◌, length, drop};
ghost use Rattle.octets.specs.Octets.{number, bytes};
ghost use Rattle.aes.specs.Aes.{encrypt};
ghost use Rattle.gcm.specs.Counter.{ctr};
ghost use Rattle.ghash.specs.Ghash.{absorb};
ghost use Rattle.gcm.specs.Gcm.{gcm_tag, gcm_encrypt};
ghost use Rattle.sframe_test.specs.Judged.{Judged, AesTakes, AesRepeatTakes, CtrTakes, GhashTakes, GcmTakes};
ghost use Rattle.sframe_test.specs.Repeated.{repeated};

use sframe_test::number;

// AES encryption of a block of 16 bytes, under a key of 16 or 32.
#[unsafe(no_mangle)]
pub extern "C" fn sframe_test_aes(key: &[u8], block: &[u8], out: &mut [u8]) -> u32
    ensures { Judged 0 (AesTakes key.now block.now out.old) (out.new ≡ encrypt key.now block.now ++ drop 16 out.old) (out.new ≡ out.old) result }
{
    number(sframe_test::aes_modes::sframe_test_aes(key, block, out))
}

// AES encryption of a block n times over, on one context: for n large, the time of the block alone.
#[unsafe(no_mangle)]
pub extern "C" fn sframe_test_aes_repeat(key: &[u8], block: &[u8], n: u32, out: &mut [u8]) -> u32
    ensures { Judged 0 (AesRepeatTakes key.now block.now out.old) (out.new ≡ repeated (encrypt key.now) n block.now) (out.new ≡ out.old) result }
{
    number(sframe_test::aes_modes::sframe_test_aes_repeat(key, block, n, out))
}

// input XOR the key stream of a nonce of 12 bytes that starts at the block count.
#[unsafe(no_mangle)]
pub extern "C" fn sframe_test_ctr(
    key: &[u8],
    nonce: &[u8],
    count: u32,
    input: &[u8],
    out: &mut [u8],
) -> u32
    ensures { Judged 0 (CtrTakes key.now nonce.now count input.now out.old) (out.new ≡ ctr key.now nonce.now count input.now ++ drop (length input.now) out.old) (out.new ≡ out.old) result }
{
    number(sframe_test::aes_modes::sframe_test_ctr(key, nonce, count, input, out))
}

// GHASH under a hash key of 16 bytes, over the data filled up with zeros to whole blocks.
#[unsafe(no_mangle)]
pub extern "C" fn sframe_test_ghash(key: &[u8], input: &[u8], out: &mut [u8]) -> u32
    ensures { Judged 0 (GhashTakes key.now input.now out.old) (out.new ≡ bytes 16 (absorb (number 16 key.now) 0 input.now) ++ drop 16 out.old) (out.new ≡ out.old) result }
{
    number(sframe_test::aes_modes::sframe_test_ghash(key, input, out))
}

// GCM encryption: the ciphertext, then the tag. The associated data are header and metadata.
#[unsafe(no_mangle)]
pub extern "C" fn sframe_test_gcm_seal(
    key: &[u8],
    nonce: &[u8],
    header: &[u8],
    metadata: &[u8],
    plaintext: &[u8],
    out: &mut [u8],
) -> u32
    ensures { Judged 0 (GcmTakes (length plaintext.now + 16) key.now nonce.now header.now metadata.now plaintext.now out.old) (out.new ≡ gcm_encrypt key.now nonce.now (header.now ++ metadata.now) plaintext.now ++ drop (length plaintext.now + 16) out.old) (out.new ≡ out.old) result }
{
    number(sframe_test::aes_modes::sframe_test_gcm_seal(
        key, nonce, header, metadata, plaintext, out,
    ))
}

// The tag of GCM over a ciphertext.
#[unsafe(no_mangle)]
pub extern "C" fn sframe_test_gcm_tag(
    key: &[u8],
    nonce: &[u8],
    header: &[u8],
    metadata: &[u8],
    ciphertext: &[u8],
    out: &mut [u8],
) -> u32
    ensures { Judged 0 (GcmTakes 16 key.now nonce.now header.now metadata.now ciphertext.now out.old) (out.new ≡ gcm_tag key.now nonce.now (header.now ++ metadata.now) ciphertext.now ++ drop 16 out.old) (out.new ≡ out.old) result }
{
    number(sframe_test::aes_modes::sframe_test_gcm_tag(
        key, nonce, header, metadata, ciphertext, out,
    ))
}
