//! What a line of a kernel's log tells of a probe (Linux 6.1, drivers/base/dd.c and core.c, with their debug messages on).

use crate::buses::Kind;
use bstr::ByteSlice;

/// The bus that a device stands on.
#[derive(Clone, Copy, PartialEq, Eq, Debug)]
pub enum Bus {
    /// One whose devices are named by the tree.
    Tree,
    /// One that numbers its devices.
    Of(Kind),
    /// One whose devices have no nodes with names of their own.
    Other,
    Untold,
}

/// What happened to the device of this name.
#[derive(Clone, Copy)]
pub enum Told<'a> {
    /// A driver begins to probe it.
    Probing {
        bus: Bus,
        driver: &'a [u8],
        name: &'a [u8],
    },
    /// It is made.
    Added {
        name: &'a [u8],
    },
    Bound {
        name: &'a [u8],
    },
    /// Its probe ended with an error for good.
    Failed {
        name: &'a [u8],
    },
    /// Its probe is put off, or the driver doesn't want it.
    GivenUp {
        name: &'a [u8],
    },
    /// Its probe returned this number: 0 where it is bound.
    Returned {
        name: &'a [u8],
        number: &'a [u8],
    },
}

// What stands before the first space.
fn first_word<'a>(text: &'a [u8]) -> &'a [u8] {
    match text.split_once_str(b" ") {
        Some((word, _)) => word,
        None => text,
    }
}

// What stands behind the last space.
fn last_word<'a>(text: &'a [u8]) -> &'a [u8] {
    match text.rsplit_once_str(b" ") {
        Some((_, word)) => word,
        None => text,
    }
}

// What stands behind this text.
fn behind<'a>(line: &'a [u8], text: &[u8]) -> Option<&'a [u8]> {
    let (_, rest) = line.split_once_str(text)?;
    Some(rest)
}

// The kernel's name of a bus.
fn bus_named(name: &[u8]) -> Bus {
    match name {
        b"platform" | b"amba" => Bus::Tree,
        b"i2c" => Bus::Of(Kind::I2c),
        b"spi" => Bus::Of(Kind::Spi),
        b"serial" => Bus::Of(Kind::Serial),
        b"mdio_bus" => Bus::Of(Kind::Mdio),
        b"mmc" | b"sdio" => Bus::Of(Kind::Mmc),
        _ => Bus::Other,
    }
}

// What `bus: 'NAME': ` says before a message.
fn bus_before(front: &[u8]) -> Bus {
    let name = match behind(front, b"bus: '") {
        Some(rest) => rest.split_once_str(b"': "),
        None => None,
    };
    match name {
        Some((name, _)) => bus_named(name),
        None => Bus::Untold,
    }
}

fn begun<'a>(line: &'a [u8]) -> Option<Told<'a>> {
    let (front, rest) = line.split_once_str(b"really_probe: probing driver ")?;
    let (driver, name) = rest.split_once_str(b" with device ")?;
    Some(Told::Probing {
        bus: bus_before(front),
        driver,
        name: first_word(name),
    })
}

fn bound<'a>(line: &'a [u8]) -> Option<Told<'a>> {
    let rest = behind(line, b"really_probe: bound device ")?;
    Some(Told::Bound {
        name: first_word(rest),
    })
}

// `probe of NAME failed with error NUMBER`, or `rejects match`. Error 517 is the kernel's word for later.
fn ended<'a>(line: &'a [u8]) -> Option<Told<'a>> {
    let rest = behind(line, b": probe of ")?;
    let name = first_word(rest);
    if behind(rest, b" rejects match").is_some() {
        return Some(Told::GivenUp { name });
    }
    let error = behind(rest, b" failed with error ")?;
    if first_word(error) == b"-517".as_slice() {
        return Some(Told::GivenUp { name });
    }
    Some(Told::Failed { name })
}

// `NAME: Driver DRIVER requests probe deferral`.
fn put_off<'a>(line: &'a [u8]) -> Option<Told<'a>> {
    let (front, _) = line.split_once_str(b" requests probe deferral")?;
    let (name, _) = front.rsplit_once_str(b": Driver ")?;
    Some(Told::GivenUp {
        name: last_word(name),
    })
}

// `probe of NAME returned NUMBER after TIME usecs`, which `initcall_debug` has the kernel print.
fn returned<'a>(line: &'a [u8]) -> Option<Told<'a>> {
    let rest = behind(line, b"probe of ")?;
    let (name, rest) = rest.split_once_str(b" returned ")?;
    Some(Told::Returned {
        name,
        number: first_word(rest),
    })
}

// `device: 'NAME': device_add`.
fn added<'a>(line: &'a [u8]) -> Option<Told<'a>> {
    let rest = behind(line, b"device: '")?;
    let (name, message) = rest.rsplit_once_str(b"': ")?;
    if !message.starts_with(b"device_add") {
        return None;
    }
    Some(Told::Added { name })
}

/// What a line tells, if it tells of a probe.
pub fn read_log_line<'a>(line: &'a [u8]) -> Option<Told<'a>> {
    if let Some(told) = begun(line) {
        return Some(told);
    }
    if let Some(told) = bound(line) {
        return Some(told);
    }
    if let Some(told) = ended(line) {
        return Some(told);
    }
    if let Some(told) = put_off(line) {
        return Some(told);
    }
    if let Some(told) = added(line) {
        return Some(told);
    }
    returned(line)
}
