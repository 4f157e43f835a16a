//! The features of a superblock by name, and how an owner removes one that is not accepted.
use std::io;
use std::io::Write;

/// A feature: its bit, its name, and how an owner removes it.
pub struct Feature {
    bit: u32,
    name: &'static str,
    way_out: &'static str,
}

/// The required incompatible feature.
pub const REVOKE: u32 = 0x1;

/// The other incompatible feature that is accepted: 64-bit block numbers.
pub const WIDE_NUMBERS: u32 = 0x2;

/// Compatible features.
/// Source: journal.rst, "Super Block".
pub const COMPATIBLE: &[Feature] = &[Feature {
    bit: 0x1,
    name: "checksum",
    way_out: "mount its file system once without journal_checksum",
}];

/// Incompatible features.
/// Source: journal.rst, "Super Block".
pub const INCOMPATIBLE: &[Feature] = &[
    Feature {
        bit: REVOKE,
        name: "revoke",
        way_out: "",
    },
    Feature {
        bit: WIDE_NUMBERS,
        name: "64bit",
        way_out: "",
    },
    Feature {
        bit: 0x4,
        name: "async_commit",
        way_out: "mount its file system once without journal_async_commit",
    },
    Feature {
        bit: 0x8,
        name: "csum_v2",
        way_out: "tune2fs -O ^metadata_csum, and mount its file system once",
    },
    Feature {
        bit: 0x10,
        name: "csum_v3",
        way_out: "tune2fs -O ^metadata_csum, and mount its file system once",
    },
    Feature {
        bit: 0x20,
        name: "fast_commit",
        way_out: "tune2fs -O ^fast_commit, and mount its file system once",
    },
];

/// Read-only compatible features have no names.
pub const READ_ONLY_COMPATIBLE: &[Feature] = &[];

/// Prints a field of features: its number and the name of each set bit.
///
/// # Errors
///
/// The line could not be written.
pub fn write_features(
    out: &mut impl Write,
    name: &str,
    bits: u32,
    features: &[Feature],
) -> io::Result<()> {
    write!(out, "{name} {bits:#x}")?;
    let mut others = bits;
    for feature in features {
        if bits & feature.bit != 0 {
            write!(out, " {}", feature.name)?;
            others &= !feature.bit;
        }
    }
    if others == bits && bits != 0 {
        write!(out, " unknown")?;
    } else if others != 0 {
        write!(out, " and others, {others:#x}")?;
    }
    writeln!(out)
}

/// Prints the names of the set features, as a JSON list.
///
/// # Errors
///
/// The list could not be written.
pub fn write_names(out: &mut impl Write, bits: u32, features: &[Feature]) -> io::Result<()> {
    let mut comma = "";
    write!(out, "[")?;
    for feature in features {
        if bits & feature.bit != 0 {
            write!(out, "{comma}\"{}\"", feature.name)?;
            comma = ",";
        }
    }
    write!(out, "]")
}

/// Prints how an owner removes each set feature that is not accepted, a line each.
pub(crate) fn write_ways_out(
    out: &mut impl Write,
    bits: u32,
    taken: u32,
    features: &[Feature],
) -> io::Result<()> {
    let mut others = bits & !taken;
    for feature in features {
        if others & feature.bit != 0 {
            writeln!(out, "  {}: {}", feature.name, feature.way_out)?;
            others &= !feature.bit;
        }
    }
    if others != 0 {
        writeln!(out, "  {others:#x}: unknown")?;
    }
    Ok(())
}
