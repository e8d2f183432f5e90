// SPDX-License-Identifier: MIT
// Each suite as a type with its sizes in bytes (RFC 9605, Table 1), and all five as one enum.
ghost use Rattle.std.specs.Prelude.{◌≡◌};
ghost use Rattle.suites.specs.Suites.{suite_of, number_of, mode_of, hash_of, params_of, cipher_key_size, Nh, Nk, Nn, Nt};

// AES_128_CTR_HMAC_SHA256_80
#[derive(Clone, Copy)]
pub struct Aes128CtrHmacSha256Tag80;

impl Aes128CtrHmacSha256Tag80 {
    pub const NUMBER: u64 = 1;

    pub const NH: usize = 32;

    pub const NKA: usize = 16;

    pub const NK: usize = 48;

    pub const NN: usize = 12;

    pub const NT: usize = 10;
}

// AES_128_CTR_HMAC_SHA256_64
#[derive(Clone, Copy)]
pub struct Aes128CtrHmacSha256Tag64;

impl Aes128CtrHmacSha256Tag64 {
    pub const NUMBER: u64 = 2;

    pub const NH: usize = 32;

    pub const NKA: usize = 16;

    pub const NK: usize = 48;

    pub const NN: usize = 12;

    pub const NT: usize = 8;
}

// AES_128_CTR_HMAC_SHA256_32
#[derive(Clone, Copy)]
pub struct Aes128CtrHmacSha256Tag32;

impl Aes128CtrHmacSha256Tag32 {
    pub const NUMBER: u64 = 3;

    pub const NH: usize = 32;

    pub const NKA: usize = 16;

    pub const NK: usize = 48;

    pub const NN: usize = 12;

    pub const NT: usize = 4;
}

// AES_128_GCM_SHA256_128
#[derive(Clone, Copy)]
pub struct Aes128GcmSha256;

impl Aes128GcmSha256 {
    pub const NUMBER: u64 = 4;

    pub const NH: usize = 32;

    pub const NK: usize = 16;

    pub const NN: usize = 12;

    pub const NT: usize = 16;
}

// AES_256_GCM_SHA512_128
#[derive(Clone, Copy)]
pub struct Aes256GcmSha512;

impl Aes256GcmSha512 {
    pub const NUMBER: u64 = 5;

    pub const NH: usize = 64;

    pub const NK: usize = 32;

    pub const NN: usize = 12;

    pub const NT: usize = 16;
}

// A suite, by what tells it from the others: counter mode with HMAC and a tag of 80, 64 or 32 bits, or GCM with a key
// of 128 or 256 bits.
#[derive(Clone, Copy)]
pub enum Suite {
    Ctr80,
    Ctr64,
    Ctr32,
    Gcm128,
    Gcm256,
}

// How a suite encrypts and authenticates: AES-CTR with HMAC, or AES-GCM.
#[derive(Clone, Copy)]
pub enum Mode {
    CtrHmac,
    Gcm,
}

// The hash of a suite's key derivation.
#[derive(Clone, Copy)]
pub enum Hash {
    Sha256,
    Sha512,
}

// The suite that has a number.
pub fn find(number: u64) -> Option<Suite>
    ensures { result ≡ suite_of number }
{
    match number {
        Aes128CtrHmacSha256Tag80::NUMBER => Some(Suite::Ctr80),
        Aes128CtrHmacSha256Tag64::NUMBER => Some(Suite::Ctr64),
        Aes128CtrHmacSha256Tag32::NUMBER => Some(Suite::Ctr32),
        Aes128GcmSha256::NUMBER => Some(Suite::Gcm128),
        Aes256GcmSha512::NUMBER => Some(Suite::Gcm256),
        _ => None,
    }
}

impl Suite {
    // The registered number.
    pub fn number(self) -> u64
        ensures { result ≡ number_of self }
    {
        match self {
            Suite::Ctr80 => Aes128CtrHmacSha256Tag80::NUMBER,
            Suite::Ctr64 => Aes128CtrHmacSha256Tag64::NUMBER,
            Suite::Ctr32 => Aes128CtrHmacSha256Tag32::NUMBER,
            Suite::Gcm128 => Aes128GcmSha256::NUMBER,
            Suite::Gcm256 => Aes256GcmSha512::NUMBER,
        }
    }

    // Nh, the bytes of what the hash gives.
    pub fn hash_size(self) -> usize
        ensures { result ≡ Nh self }
    {
        match self {
            Suite::Ctr80 => Aes128CtrHmacSha256Tag80::NH,
            Suite::Ctr64 => Aes128CtrHmacSha256Tag64::NH,
            Suite::Ctr32 => Aes128CtrHmacSha256Tag32::NH,
            Suite::Gcm128 => Aes128GcmSha256::NH,
            Suite::Gcm256 => Aes256GcmSha512::NH,
        }
    }

    // Nk, the bytes of the key.
    pub fn key_size(self) -> usize
        ensures { result ≡ Nk self }
    {
        match self {
            Suite::Ctr80 => Aes128CtrHmacSha256Tag80::NK,
            Suite::Ctr64 => Aes128CtrHmacSha256Tag64::NK,
            Suite::Ctr32 => Aes128CtrHmacSha256Tag32::NK,
            Suite::Gcm128 => Aes128GcmSha256::NK,
            Suite::Gcm256 => Aes256GcmSha512::NK,
        }
    }

    // Nn, the bytes of the nonce and of the salt.
    pub fn nonce_size(self) -> usize
        ensures { result ≡ Nn }
    {
        match self {
            Suite::Ctr80 => Aes128CtrHmacSha256Tag80::NN,
            Suite::Ctr64 => Aes128CtrHmacSha256Tag64::NN,
            Suite::Ctr32 => Aes128CtrHmacSha256Tag32::NN,
            Suite::Gcm128 => Aes128GcmSha256::NN,
            Suite::Gcm256 => Aes256GcmSha512::NN,
        }
    }

    // Nt, the bytes of the tag.
    pub fn tag_size(self) -> usize
        ensures { result ≡ Nt self }
    {
        match self {
            Suite::Ctr80 => Aes128CtrHmacSha256Tag80::NT,
            Suite::Ctr64 => Aes128CtrHmacSha256Tag64::NT,
            Suite::Ctr32 => Aes128CtrHmacSha256Tag32::NT,
            Suite::Gcm128 => Aes128GcmSha256::NT,
            Suite::Gcm256 => Aes256GcmSha512::NT,
        }
    }

    // The bytes of the key that AES takes: Nka where HMAC takes the others, else Nk.
    pub fn cipher_key_size(self) -> usize
        ensures { result ≡ cipher_key_size self }
    {
        match self {
            Suite::Ctr80 => Aes128CtrHmacSha256Tag80::NKA,
            Suite::Ctr64 => Aes128CtrHmacSha256Tag64::NKA,
            Suite::Ctr32 => Aes128CtrHmacSha256Tag32::NKA,
            Suite::Gcm128 => Aes128GcmSha256::NK,
            Suite::Gcm256 => Aes256GcmSha512::NK,
        }
    }

    pub fn mode(self) -> Mode
        ensures { result ≡ mode_of self }
    {
        match self {
            Suite::Ctr80 => Mode::CtrHmac,
            Suite::Ctr64 => Mode::CtrHmac,
            Suite::Ctr32 => Mode::CtrHmac,
            Suite::Gcm128 => Mode::Gcm,
            Suite::Gcm256 => Mode::Gcm,
        }
    }

    pub fn hash(self) -> Hash
        ensures { params_of result ≡ hash_of self }
    {
        match self {
            Suite::Ctr80 => Hash::Sha256,
            Suite::Ctr64 => Hash::Sha256,
            Suite::Ctr32 => Hash::Sha256,
            Suite::Gcm128 => Hash::Sha256,
            Suite::Gcm256 => Hash::Sha512,
        }
    }
}
