// SPDX-License-Identifier: MIT
// SubWord by the table of the S-box (FIPS 197 §5.2).
ghost use Rattle.std.specs.Prelude.{◌≡◌};
ghost use Rattle.aes_tables.specs.Field.{s_box};
ghost use Rattle.aes_tables.specs.Inner.Tables.{SBoxTable};

use aes::schedule::SubWord;

// The table of the S-box.
#[derive(Clone, Copy)]
pub struct SBox {
    table: [u8; 256],
    ghost right: { SBoxTable table },
}

// The table of the S-box, as it stands in `aes_tables`.
pub fn s_box() -> SBox {
    SBox {
        table: aes_tables::s_box(),
    }
}

impl SBox {
    // The entry for x.
    fn sub(&self, x: u8) -> u8
        ensures { result ≡ s_box x }
    {
        self.table[x as usize]
    }
}

impl SubWord for SBox {
    fn sub_word(&self, w: u32) -> u32 {
        u32::from_be_bytes(w.to_be_bytes().map(|x| self.sub(x)))
    }
}
