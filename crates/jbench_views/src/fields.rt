//! The superblock fields in the order of the bytes, each with the test that it fails.
ghost use Rattle.std.specs.Prelude.{◌+◌, ◌≤◌, length};

use byteorder::{BigEndian, ByteOrder};
use jbench_logs::features::{
    COMPATIBLE, Feature, INCOMPATIBLE, READ_ONLY_COMPATIBLE, REVOKE, WIDE_NUMBERS,
};
use journal_model::JournalError;
use journal_model::layout::{GREATEST_LENGTH, LEAST_LENGTH, MAGIC, SUPER_TYPE};
use journal_script::is_block_size;
use log_format::Super;
use std::alloc::{AllocError, Global};

/// The fewest blocks of a ring.
const LEAST_RING: u32 = 16;

/// A field of a superblock.
#[derive(Clone, Copy)]
pub(crate) struct Field<'a> {
    pub(crate) name: &'static str,
    pub(crate) value: FieldValue<'a>,
    pub(crate) failed: Option<FailedTest>,
}

/// A field's value.
#[derive(Clone, Copy)]
pub(crate) enum FieldValue<'a> {
    Number(u32),
    Bytes(&'a [u8]),
    /// The bits of a field of features, and the features that have names.
    Features(u32, &'static [Feature]),
}

/// The test that a field fails: the refusal of an opening, and what is wanted.
#[derive(Clone, Copy)]
pub(crate) struct FailedTest {
    pub(crate) refusal: JournalError,
    pub(crate) wanted: &'static str,
}

impl<'a> Field<'a> {
    /// A field with this value.
    fn new(name: &'static str, value: FieldValue<'a>) -> Field<'a> {
        Field {
            name,
            value,
            failed: None,
        }
    }

    /// A number field.
    fn number(name: &'static str, number: u32) -> Field<'a> {
        Field::new(name, FieldValue::Number(number))
    }

    /// This field with its test by an opening.
    fn tested(self, passes: bool, refusal: JournalError, wanted: &'static str) -> Field<'a> {
        let failed = if passes {
            None
        } else {
            Some(FailedTest { refusal, wanted })
        };
        Field { failed, ..self }
    }
}

/// The number at a place of a superblock.
fn number_at(bytes: &[u8], at: usize) -> u32
    requires { at + 4 ≤ length bytes.now }
{
    BigEndian::read_u32(&bytes[at..])
}

/// The fields of the superblock in these bytes, of a log with `blocks` blocks.
pub(crate) fn fields_of<'a>(
    alloc: Global,
    bytes: &'a [u8],
    blocks: u64,
) -> Result<Vec<Field<'a>>, AllocError>
    requires { 1024 ≤ length bytes.now }
{
    let fields = Super::fields(bytes);
    let mut list = Vec::new(alloc);
    push_header(&mut list, bytes)?;
    push_lengths(&mut list, &fields, bytes.len(), blocks)?;
    push_tail(&mut list, &fields)?;
    push_features(&mut list, &fields)?;
    push_users(&mut list, &fields, bytes)?;
    push_rest(&mut list, bytes)?;
    Ok(list)
}

/// Adds the header's fields.
fn push_header<'a>(list: &mut Vec<Field<'a>>, bytes: &'a [u8]) -> Result<(), AllocError>
    requires { 1024 ≤ length bytes.now }
{
    list.push(Field::new("h_magic", FieldValue::Bytes(&bytes[..4])).tested(
        bytes.starts_with(&MAGIC),
        JournalError::BadMagic,
        "c03b3998",
    ))?;
    let block_type = number_at(bytes, 4);
    list.push(Field::number("h_blocktype", block_type).tested(
        block_type == SUPER_TYPE,
        JournalError::BadType,
        "4, a superblock of version 2",
    ))?;
    list.push(Field::number("h_sequence", number_at(bytes, 8)))?;
    Ok(())
}

/// Adds the fields of lengths and places, of a log with `blocks` blocks of `block_size` bytes.
fn push_lengths(
    list: &mut Vec<Field<'_>>,
    fields: &Super,
    block_size: usize,
    blocks: u64,
) -> Result<(), AllocError> {
    let size = u64::from(fields.s_blocksize);
    list.push(Field::number("s_blocksize", fields.s_blocksize).tested(
        is_block_size(size) && size == block_size as u64,
        JournalError::BadBlockSize,
        "1024, 2048 or 4096",
    ))?;
    let (length, first) = (fields.s_maxlen, fields.s_first);
    list.push(Field::number("s_maxlen", length).tested(
        LEAST_LENGTH <= length && length <= GREATEST_LENGTH && u64::from(length) <= blocks,
        JournalError::BadLength,
        "17 to 1048576, and no more than the log has blocks",
    ))?;
    list.push(Field::number("s_first", first).tested(
        first > 0 && length.saturating_sub(first) >= LEAST_RING,
        JournalError::BadFirst,
        "1 or more, and 16 below s_maxlen or less",
    ))?;
    Ok(())
}

/// Adds the fields of the tail and of an error.
fn push_tail(list: &mut Vec<Field<'_>>, fields: &Super) -> Result<(), AllocError> {
    list.push(Field::number("s_sequence", fields.s_sequence))?;
    let start = fields.s_start;
    list.push(Field::number("s_start", start).tested(
        start == 0 || (fields.s_first <= start && start < fields.s_maxlen),
        JournalError::BadStart,
        "0, of a clean log, or a place from s_first on and below s_maxlen",
    ))?;
    list.push(Field::number("s_errno", fields.s_errno).tested(
        fields.s_errno == 0,
        JournalError::ErrnoSet,
        "0, no error that its file system noted",
    ))?;
    Ok(())
}

/// Adds the fields of features.
fn push_features(list: &mut Vec<Field<'_>>, fields: &Super) -> Result<(), AllocError> {
    let compatible = fields.s_feature_compat;
    let value = FieldValue::Features(compatible, COMPATIBLE);
    list.push(Field::new("s_feature_compat", value).tested(
        compatible == 0,
        JournalError::BadFeature,
        "0",
    ))?;
    let incompatible = fields.s_feature_incompat;
    let value = FieldValue::Features(incompatible, INCOMPATIBLE);
    list.push(Field::new("s_feature_incompat", value).tested(
        incompatible == REVOKE || incompatible == REVOKE | WIDE_NUMBERS,
        JournalError::BadFeature,
        "0x1, revoke, or 0x3, with 64bit",
    ))?;
    let read_only = fields.s_feature_ro_compat;
    let value = FieldValue::Features(read_only, READ_ONLY_COMPATIBLE);
    list.push(Field::new("s_feature_ro_compat", value).tested(
        read_only == 0,
        JournalError::BadFeature,
        "0",
    ))?;
    Ok(())
}

/// Adds the UUID and the count of users.
fn push_users<'a>(
    list: &mut Vec<Field<'a>>,
    fields: &Super,
    bytes: &'a [u8],
) -> Result<(), AllocError>
    requires { 1024 ≤ length bytes.now }
{
    list.push(Field::new("s_uuid", FieldValue::Bytes(&bytes[0x30..0x40])))?;
    list.push(Field::number("s_nr_users", fields.s_nr_users).tested(
        fields.s_nr_users == 1,
        JournalError::BadFeature,
        "1, a log of one file system",
    ))?;
    Ok(())
}

/// Adds the fields that the journal never reads.
/// Source: journal.rst, "Super Block".
fn push_rest<'a>(list: &mut Vec<Field<'a>>, bytes: &'a [u8]) -> Result<(), AllocError>
    requires { 1024 ≤ length bytes.now }
{
    list.push(Field::number("s_dynsuper", number_at(bytes, 0x44)))?;
    list.push(Field::number("s_max_transaction", number_at(bytes, 0x48)))?;
    list.push(Field::number("s_max_trans_data", number_at(bytes, 0x4c)))?;
    list.push(Field::number("s_checksum_type", u32::from(bytes[0x50])))?;
    list.push(Field::number("s_num_fc_blks", number_at(bytes, 0x54)))?;
    list.push(Field::number("s_head", number_at(bytes, 0x58)))?;
    list.push(Field::new("s_checksum", FieldValue::Bytes(&bytes[0xfc..0x100])))?;
    list.push(Field::new("s_users", FieldValue::Bytes(&bytes[0x100..0x110])))?;
    Ok(())
}
