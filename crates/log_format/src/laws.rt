//! What is written is read back. Each function states one law; no body runs.
ghost use Rattle.std.specs.Prelude.{◌≡◌, ◌⊎◌, ℕ, ◌^◌, ◌<◌, ◌≤◌, true, Bool, List, length, None, All};
ghost use Rattle.log_model.specs.declared.log.Tag.{Tag};
ghost use Rattle.journal_model.specs.Block.{IsAllowedBlock};
ghost use Rattle.log_model.specs.Descriptor.{IsDescriptor, descriptor_block};
ghost use Rattle.journal_model.specs.Layout.{IsLayout, Layout, every_number, numbers_of, tags_of, uuid_bytes};
ghost use Rattle.log_model.specs.OwnText.{commit_block, tags_from};
ghost use Rattle.log_model.specs.RevokeBlock.{IsRevokeBlock, revoke_block};
ghost use Rattle.journal_model.specs.Disk.{Shape};
ghost use Rattle.log_model.specs.Superblock.{Super, formatted_super, features_of, greatest_length, least_length, revoke_feature, super_in, super_refusal, wide_features, widened, with_tail};
ghost use Rattle.log_model.specs.Text.{IsCommitBlock};
ghost use Rattle.log_format.specs.Size.{FitDescriptor, FitRevokeBlock, IsBlockSize};

/// The tags of copies fit one descriptor, if there are not too many.
pub fn the_writers_tags_fit()
    ensures { (l : Layout) (copies : List (ℕ × List ℕ)) →
        length copies ≤ tags_of l → All (λ c. c.0 < every_number l) copies →
        FitDescriptor l (tags_from true copies) }
{}

/// A descriptor written of copies is well formed, with their tags.
pub fn a_written_descriptor_is_one()
    ensures { (l : Layout) (count sequence : ℕ) (uuid : List ℕ) (copies : List (ℕ × List ℕ)) →
        IsLayout l → length uuid ≡ uuid_bytes → sequence < 2 ^ 32 →
        0 < length copies → length copies ≤ tags_of l → All (λ c. IsAllowedBlock l count c.0) copies →
        IsDescriptor l count sequence (descriptor_block l uuid sequence (tags_from true copies)) (tags_from true copies) }
{}

/// A revoke block written of numbers is well formed, with these numbers.
pub fn a_written_revoke_block_is_one()
    ensures { (l : Layout) (count sequence : ℕ) (numbers : List ℕ) →
        IsLayout l → sequence < 2 ^ 32 →
        length numbers ≤ numbers_of l → All (IsAllowedBlock l count) numbers →
        IsRevokeBlock l count sequence (revoke_block l sequence numbers) numbers }
{}

/// A written commit block has its header.
pub fn a_written_commit_block_is_one()
    ensures { (l : Layout) (sequence : ℕ) → sequence < 2 ^ 32 → IsCommitBlock sequence (commit_block l sequence) }
{}

/// A block has one reading as a descriptor, and one as a revoke block.
pub fn one_reading()
    ensures descriptor { (l : Layout) (count sequence : ℕ) (block : List ℕ) (tags others : List Tag) →
        IsDescriptor l count sequence block tags → IsDescriptor l count sequence block others → tags ≡ others }
    ensures revoke_block { (l : Layout) (count sequence : ℕ) (block numbers others : List ℕ) →
        0 < l.number_bytes →
        IsRevokeBlock l count sequence block numbers → IsRevokeBlock l count sequence block others → numbers ≡ others }
{}

/// The superblock of an empty log has the fields of its format.
pub fn a_formatted_superblock_says_its_fields()
    ensures { (size maxlen : ℕ) (uuid : List ℕ) (is_wide : Bool) →
        IsBlockSize size → maxlen < 2 ^ 32 → length uuid ≡ uuid_bytes →
        let fields : Super = record {
          s_blocksize = size;
          s_maxlen = maxlen;
          s_first = 1;
          s_sequence = 1;
          s_start = 0;
          s_errno = 0;
          s_feature_compat = 0;
          s_feature_incompat = features_of is_wide;
          s_feature_ro_compat = 0;
          s_uuid = uuid;
          s_nr_users = 1;
        } in super_in (formatted_super size maxlen uuid is_wide) ≡ fields }
{}

/// It is accepted, if its length is allowed and fits the log area.
pub fn a_formatted_superblock_is_accepted()
    ensures { (size maxlen log_blocks home_blocks : ℕ) (uuid : List ℕ) (is_wide : Bool) →
        IsBlockSize size → least_length ≤ maxlen → maxlen ≤ greatest_length → maxlen ≤ log_blocks → length uuid ≡ uuid_bytes →
        let shape : Shape = record { block_size = size; log_blocks = log_blocks; home_blocks = home_blocks } in
        super_refusal shape (formatted_super size maxlen uuid is_wide) ≡ None }
{}

/// A new tail changes only s_sequence and s_start.
pub fn a_new_tail_changes_two_fields()
    ensures { (block : List ℕ) (sequence start : ℕ) →
        IsBlockSize (length block) → sequence < 2 ^ 32 → start < 2 ^ 32 →
        super_in (with_tail block sequence start) ≡ record (super_in block) { s_sequence = sequence; s_start = start } }
{}

/// A new tail keeps a superblock accepted, if the log is then clean or begins in its ring.
pub fn a_new_tail_is_accepted()
    ensures { (shape : Shape) (block : List ℕ) (sequence start : ℕ) →
        IsBlockSize (length block) → super_refusal shape block ≡ None →
        (start ≡ 0) ⊎ (((super_in block).s_first ≤ start) × (start < (super_in block).s_maxlen)) →
        super_refusal shape (with_tail block sequence start) ≡ None }
{}

/// The last of two new tails counts.
pub fn a_new_tail_replaces_the_last()
    ensures { (block : List ℕ) (last_sequence last_start sequence start : ℕ) →
        IsBlockSize (length block) →
        with_tail (with_tail block last_sequence last_start) sequence start ≡ with_tail block sequence start }
{}

/// Widening changes only the incompatible features.
pub fn a_widened_superblock_changes_one_field()
    ensures { (block : List ℕ) → IsBlockSize (length block) →
        super_in (widened block) ≡ record (super_in block) { s_feature_incompat = wide_features } }
{}

/// A superblock of 32-bit block numbers stays accepted when widened.
pub fn a_widened_superblock_is_accepted()
    ensures { (shape : Shape) (block : List ℕ) →
        IsBlockSize (length block) → super_refusal shape block ≡ None → (super_in block).s_feature_incompat ≡ revoke_feature →
        super_refusal shape (widened block) ≡ None }
{}
