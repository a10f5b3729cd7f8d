//! Names on buses that number their devices (Linux 6.1: drivers/i2c/i2c-core-base.c, `i2c_dev_set_name`; drivers/spi/spi.c,
//! `spi_dev_set_name`; drivers/tty/serdev/core.c, `serdev_device_add`; include/linux/phy.h, `PHY_ID_FMT`; drivers/mmc/core/sdio_bus.c,
//! `sdio_add_func`).

use crate::node_name::base_name;
use bstr::ByteSlice;
use std::alloc::{AllocError, Global};

/// A kind of bus.
#[derive(Clone, Copy, PartialEq, Eq, Debug)]
pub enum Kind {
    I2c,
    Spi,
    Serial,
    Mdio,
    Mmc,
}

/// All kinds.
pub const KINDS: [Kind; 5] = [Kind::I2c, Kind::Spi, Kind::Serial, Kind::Mdio, Kind::Mmc];

/// A device's place on such a bus: the name of the bus, in two pieces, and the unit address there.
#[derive(Clone, Copy)]
pub struct Spot<'n> {
    pub kind: Kind,
    prefix: &'static [u8],
    number: &'n [u8],
    unit: &'n [u8],
}

/// Without the zeros in front; of zeros alone one is left.
pub fn without_zeros<'n>(number: &'n [u8]) -> &'n [u8] {
    let mut rest = number;
    while let Some(less) = rest.strip_prefix(b"0") {
        if less.is_empty() {
            return rest;
        }
        rest = less;
    }
    rest
}

fn is_hex(digits: &[u8]) -> bool {
    !digits.is_empty() && digits.iter().all(|c| c.is_ascii_hexdigit())
}

// `1-0068`, address 68 on bus 1.
fn on_i2c<'n>(name: &'n [u8]) -> Option<(&'n [u8], &'n [u8])> {
    let (number, address) = name.split_once_str(b"-")?;
    if address.len() != 4 || !is_hex(number) || !is_hex(address) {
        return None;
    }
    Some((number, address))
}

// `spi0.1`, chip select 1.
fn on_spi<'n>(name: &'n [u8]) -> Option<(&'n [u8], &'n [u8])> {
    let (_, select) = name.strip_prefix(b"spi")?.split_once_str(b".")?;
    let (bus, _) = name.split_once_str(b".")?;
    Some((bus, select))
}

// `serial0-0`, the one device of a port, whose node has no unit address.
fn on_serial<'n>(name: &'n [u8]) -> Option<(&'n [u8], &'n [u8])> {
    let (bus, _) = name.split_once_str(b"-")?;
    if !bus.starts_with(b"serial") {
        return None;
    }
    Some((bus, b"".as_slice()))
}

// `1c0b080.mdio-mii:01`, address 1.
fn on_mdio<'n>(name: &'n [u8]) -> Option<(&'n [u8], &'n [u8])> {
    let (bus, address) = name.rsplit_once_str(b":")?;
    if address.len() != 2 || !is_hex(address) {
        return None;
    }
    Some((bus, address))
}

// `mmc1:0001:1`, function 1 of a card.
fn on_mmc<'n>(name: &'n [u8]) -> Option<(&'n [u8], &'n [u8])> {
    let (bus, rest) = name.split_once_str(b":")?;
    let (_, function) = rest.rsplit_once_str(b":")?;
    if !bus.starts_with(b"mmc") {
        return None;
    }
    Some((bus, function))
}

impl<'n> Spot<'n> {
    /// The place that a name on a bus of this kind tells.
    pub fn of(kind: Kind, name: &'n [u8]) -> Option<Self> {
        let (number, unit) = match kind {
            Kind::I2c => on_i2c(name)?,
            Kind::Spi => on_spi(name)?,
            Kind::Serial => on_serial(name)?,
            Kind::Mdio => on_mdio(name)?,
            Kind::Mmc => on_mmc(name)?,
        };
        let prefix = match kind {
            Kind::I2c => b"i2c-".as_slice(),
            _ => b"".as_slice(),
        };
        Some(Self {
            kind,
            prefix,
            number,
            unit: without_zeros(unit),
        })
    }

    /// The name of the bus.
    pub fn bus(&self, alloc: Global) -> Result<Vec<u8>, AllocError> {
        let mut name = Vec::from_slice(alloc, self.prefix)?;
        name.extend_from_slice(self.number)?;
        Ok(name)
    }

    /// What the devices at this unit address of a bus of this kind are listed under.
    pub fn key(&self, alloc: Global) -> Result<Vec<u8>, AllocError> {
        key_at(alloc, self.kind, self.unit)
    }
}

fn letter(kind: Kind) -> u8 {
    match kind {
        Kind::I2c => b'i',
        Kind::Spi => b's',
        Kind::Serial => b'u',
        Kind::Mdio => b'm',
        Kind::Mmc => b'c',
    }
}

/// What the devices at a unit address of a bus of this kind are listed under.
pub fn key_at(alloc: Global, kind: Kind, unit: &[u8]) -> Result<Vec<u8>, AllocError> {
    let mut key = Vec::new(alloc);
    key.push(letter(kind))?;
    key.extend_from_slice(without_zeros(unit))?;
    Ok(key)
}

fn has_any(name: &[u8], words: &[&[u8]]) -> bool {
    words.iter().any(|word| name.find(*word).is_some())
}

/// The kind of the bus that a node of this name holds.
pub fn kind_of_node(name: &[u8]) -> Option<Kind> {
    let base = base_name(name);
    if has_any(base, &[b"i2c"]) {
        return Some(Kind::I2c);
    }
    if has_any(base, &[b"spi"]) {
        return Some(Kind::Spi);
    }
    if has_any(base, &[b"serial", b"uart"]) {
        return Some(Kind::Serial);
    }
    if has_any(base, &[b"mdio", b"ethernet"]) {
        return Some(Kind::Mdio);
    }
    if has_any(base, &[b"mmc", b"sdhci", b"sdio"]) {
        return Some(Kind::Mmc);
    }
    None
}
