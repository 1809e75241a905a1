//! Seals: CRC-32 checksums of lines.
ghost use Rattle.std.specs.Prelude.{◌≡◌, ◌^◌, ◌<◌};
ghost use Rattle.reg_node.specs.Seals.{crc_byte, crc_over, seal_text};
ghost use Rattle.reg_node.specs.Fours.{crc_four};

use hex::encode_to_slice;

/// The register at first.
pub(crate) const FIRST_CRC: u32 = 0xffff_ffff;

/// The registers that four bits of zeros make of those below 16, by the polynomial edb88320, its lowest power first.
const FOURS: [u32; 16] = [
    0x0000_0000,
    0x1db7_1064,
    0x3b6e_20c8,
    0x26d9_30ac,
    0x76dc_4190,
    0x6b6b_51f4,
    0x4db2_6158,
    0x5005_713c,
    0xedb8_8320,
    0xf00f_9344,
    0xd6d6_a3e8,
    0xcb61_b38c,
    0x9b64_c2b0,
    0x86d3_d2d4,
    0xa00a_e278,
    0xbdbd_f21c,
];

fn over_four(crc: u32) -> u32
    ensures { result ≡ crc_four crc }
{
    (crc / 16) ^ FOURS[(crc % 16) as usize]
}

#[tactic(auto, unfolding(crate::specs::Seals::crc_byte, crate::specs::Fours::crc_four))]
fn over_byte(crc: u32, byte: u8) -> u32
    ensures { result ≡ crc_byte crc byte }
{
    over_four(over_four(crc ^ u32::from(byte)))
}

/// The register after these bytes.
pub(crate) fn over(crc: u32, bytes: &[u8]) -> u32
    ensures { result ≡ crc_over crc bytes.now }
{
    let mut after = crc;
    for byte in bytes {
        after = over_byte(after, *byte);
    }
    after
}

/// The digits of the CRC-32 of a register.
pub(crate) fn digits(crc: u32) -> [u8; 8]
    ensures { result ≡ seal_text crc }
{
    let bytes = (0xffff_ffff - crc).to_be_bytes();
    let mut digits = [0u8; 8];
    match encode_to_slice(bytes, &mut digits) {
        Ok(()) => digits,
        Err(_) => unreachable!(),
    }
}
