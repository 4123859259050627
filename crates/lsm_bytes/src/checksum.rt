//! CRC32C, and the mask under which files keep it.
ghost use Rattle.std.specs.Prelude.{◌≡◌, ◌^◌, ◌<◌, ◌/◌, ◌%◌, ◌*◌, ◌+◌, ℕ, bit_xor};
ghost use Rattle.lsm_bytes.specs.Checksum.{divide_bits, take_byte, take_bytes, checksum_of, masked, unmasked};

use crate::tables::TABLES;
use byteorder::{ByteOrder, LittleEndian};
use std::marker::Model;

/// What is added to a rotated checksum where a file keeps it.
const MASK_DELTA: u32 = 0xA282_EAD8;

/// A CRC32C that takes its bytes piece by piece. Contracts see its register, from which `checksum_of` gives the
/// checksum.
#[derive(Clone, Copy, Debug, PartialEq, Eq)]
pub struct Crc {
    register: u32,
}

impl Model for Crc {
    ghost use Rattle.std.specs.Prelude.{ℕ};

    ghost Value = { ℕ };

    ghost view = { λ c. c.register };

    ghost inverse = { λ register. record { register = register } };
}

impl Crc {
    /// The checksum of no bytes yet.
    pub fn new() -> Self
        ensures { result ≡ 0xFFFFFFFF }
    {
        Crc {
            register: 0xFFFF_FFFF,
        }
    }

    /// Takes these bytes in behind those that it took before.
    pub fn update(&mut self, bytes: &[u8])
        ensures { self.new ≡ take_bytes self.old bytes.now }
    {
        let mut register = self.register;
        let mut rest = bytes;
        while rest.len() >= 8 {
            let (eight, behind) = rest.split_at(8);
            register = after_eight(register, LittleEndian::read_u64(eight));
            rest = behind;
        }
        self.register = after_each(register, rest);
    }

    /// The checksum of the bytes that it took.
    pub fn value(&self) -> u32
        ensures { result ≡ checksum_of self.now }
    {
        self.register ^ 0xFFFF_FFFF
    }
}

/// A checksum as files keep it. Bytes with their plain checksum behind them would all have one and the same
/// checksum; with the masked one behind them they don't.
pub fn mask(crc: u32) -> u32
    ensures { result ≡ masked crc }
{
    crc.rotate_right(15).wrapping_add(MASK_DELTA)
}

/// The checksum that files keep as this number.
pub fn unmask(masked: u32) -> u32
    ensures { result ≡ unmasked masked }
{
    masked.wrapping_sub(MASK_DELTA).rotate_left(15)
}

/// What 8 * (table + 1) bits of the division make of a byte.
fn entry(table: usize, byte: u8) -> u32
    requires { table < 8 }
    ensures { result ≡ divide_bits (8 * (table + 1)) byte }
{
    TABLES[table][byte as usize]
}

/// The register after one byte.
fn after_byte(register: u32, byte: u8) -> u32
    ensures { result ≡ take_byte register byte }
{
    let low = (register ^ u32::from(byte)) % 256;
    entry(0, low as u8) ^ (register >> 8)
}

/// The register after these bytes, a byte at a time.
fn after_each(register: u32, bytes: &[u8]) -> u32
    ensures { result ≡ take_bytes register bytes.now }
{
    let mut after = register;
    for byte in bytes {
        after = after_byte(after, *byte);
    }
    after
}

/// The register after eight bytes at once, which are given as the number that they are.
///
/// The division is linear: what 64 bits of it make of a number is the xor of what they make of the number's
/// bytes, each with as many bits as are left where the division comes to it.
fn after_eight(register: u32, eight: u64) -> u32
    ensures { result ≡ divide_bits 64 (bit_xor register eight) }
{
    let mixed = u64::from(register) ^ eight;
    let mut after = 0;
    // From the highest byte on, so that the bytes that the register reaches come last.
    for table in 0..8usize {
        let byte = (mixed >> (56 - 8 * table)) % 256;
        after ^= entry(table, byte as u8);
    }
    after
}
