//! What the format's definitions say of small examples, byte for byte.
//!
//! Blocks have 1024 bytes, and the UUID is sixteen bytes `aa`. No body runs.
#![tactic(auto, unfolding(journal_model::specs::Layout::padded, log_model::specs::Descriptor::descriptor_block, log_model::specs::RevokeBlock::revoke_block, log_model::specs::OwnText::groups, log_model::specs::OwnText::commit_block, log_model::specs::OwnText::own_text, log_model::specs::Superblock::formatted_super))]

ghost use Rattle.std.specs.Prelude.{◌≡◌, ◌++◌, ◌∷◌, [], drop, false, map, replicate, true};
ghost use Rattle.std.specs.List.{range_with_len};
ghost use Rattle.journal_model.specs.declared.entry.Entry.TheVariants.{Copy, Revoke};
ghost use Rattle.log_model.specs.declared.log.Piece.TheVariants.{Copies, Revokes};
ghost use Rattle.log_model.specs.Descriptor.{tag_spelling};
ghost use Rattle.log_model.specs.Escape.{unescaped};
ghost use Rattle.journal_model.specs.Layout.{narrow, wide};
ghost use Rattle.log_model.specs.OwnText.{own_text};
ghost use Rattle.log_model.specs.Room.{IsCapacity, need};
ghost use Rattle.log_model.specs.Superblock.{formatted_super};

/// A tag is its block number, a checksum field of zeros, and the flags. The UUID follows the first tag of a
/// descriptor.
pub fn tags_as_spelled()
    ensures first { tag_spelling (narrow 1024) (replicate 16 0xaa)
        (record { block = 9; escaped = false; same_uuid = false; last = false })
        ≡ 0 ∷ 0 ∷ 0 ∷ 9 ∷ 0 ∷ 0 ∷ 0 ∷ 0 ∷ replicate 16 0xaa }
    ensures middle { tag_spelling (narrow 1024) (replicate 16 0xaa)
        (record { block = 10; escaped = false; same_uuid = true; last = false })
        ≡ 0 ∷ 0 ∷ 0 ∷ 10 ∷ 0 ∷ 0 ∷ 0 ∷ 2 ∷ [] }
    ensures last { tag_spelling (narrow 1024) (replicate 16 0xaa)
        (record { block = 10; escaped = false; same_uuid = true; last = true })
        ≡ 0 ∷ 0 ∷ 0 ∷ 10 ∷ 0 ∷ 0 ∷ 0 ∷ 10 ∷ [] }
    ensures sole { tag_spelling (narrow 1024) (replicate 16 0xaa)
        (record { block = 9; escaped = false; same_uuid = false; last = true })
        ≡ 0 ∷ 0 ∷ 0 ∷ 9 ∷ 0 ∷ 0 ∷ 0 ∷ 8 ∷ replicate 16 0xaa }
    ensures sole_escaped { tag_spelling (narrow 1024) (replicate 16 0xaa)
        (record { block = 20; escaped = true; same_uuid = false; last = true })
        ≡ 0 ∷ 0 ∷ 0 ∷ 0x14 ∷ 0 ∷ 0 ∷ 0 ∷ 9 ∷ replicate 16 0xaa }
{}

/// With 64-bit numbers, the high half of a tag's number follows the flags.
pub fn tags_of_64_bits_as_spelled()
    ensures first { tag_spelling (wide 1024) (replicate 16 0xaa)
        (record { block = 9; escaped = false; same_uuid = false; last = false })
        ≡ 0 ∷ 0 ∷ 0 ∷ 9 ∷ 0 ∷ 0 ∷ 0 ∷ 0 ∷ 0 ∷ 0 ∷ 0 ∷ 0 ∷ replicate 16 0xaa }
    ensures last { tag_spelling (wide 1024) (replicate 16 0xaa)
        (record { block = 10; escaped = false; same_uuid = true; last = true })
        ≡ 0 ∷ 0 ∷ 0 ∷ 10 ∷ 0 ∷ 0 ∷ 0 ∷ 10 ∷ 0 ∷ 0 ∷ 0 ∷ 0 ∷ [] }
    ensures sole { tag_spelling (wide 1024) (replicate 16 0xaa)
        (record { block = 4294967301; escaped = false; same_uuid = false; last = true })
        ≡ 0 ∷ 0 ∷ 0 ∷ 5 ∷ 0 ∷ 0 ∷ 0 ∷ 8 ∷ 0 ∷ 0 ∷ 0 ∷ 1 ∷ replicate 16 0xaa }
{}

/// Two copies: one descriptor with both tags, the copies and a commit block.
pub fn text_of_two_copies()
    ensures { own_text (narrow 1024) (replicate 16 0xaa) 2
        ((9, Copy (0x11 ∷ 0 ∷ 0 ∷ 0 ∷ 0 ∷ 0 ∷ 0 ∷ 0 ∷ [])) ∷ (10, Copy (0x22 ∷ 0 ∷ 0 ∷ 0 ∷ 0 ∷ 0 ∷ 0 ∷ 0 ∷ [])) ∷ [])
        ≡ record {
          pieces = Copies
              (0xc0 ∷ 0x3b ∷ 0x39 ∷ 0x98 ∷ 0 ∷ 0 ∷ 0 ∷ 1 ∷ 0 ∷ 0 ∷ 0 ∷ 2
              ∷ 0 ∷ 0 ∷ 0 ∷ 9 ∷ 0 ∷ 0 ∷ 0 ∷ 0
              ∷ replicate 16 0xaa
              ++ 0 ∷ 0 ∷ 0 ∷ 10 ∷ 0 ∷ 0 ∷ 0 ∷ 10 ∷ replicate 980 0)
              (record { block = 9; escaped = false; same_uuid = false; last = false }
              ∷ record { block = 10; escaped = false; same_uuid = true; last = true } ∷ [])
              ((0x11 ∷ 0 ∷ 0 ∷ 0 ∷ 0 ∷ 0 ∷ 0 ∷ 0 ∷ []) ∷ (0x22 ∷ 0 ∷ 0 ∷ 0 ∷ 0 ∷ 0 ∷ 0 ∷ 0 ∷ []) ∷ []) ∷ [];
          commit = 0xc0 ∷ 0x3b ∷ 0x39 ∷ 0x98 ∷ 0 ∷ 0 ∷ 0 ∷ 2 ∷ 0 ∷ 0 ∷ 0 ∷ 2 ∷ replicate 1012 0;
        } }
{}

/// One copy: its tag is the first and the last one.
pub fn text_of_one_copy()
    ensures { own_text (narrow 1024) (replicate 16 0xaa) 2
        ((9, Copy (0x11 ∷ 0 ∷ 0 ∷ 0 ∷ 0 ∷ 0 ∷ 0 ∷ 0 ∷ [])) ∷ [])
        ≡ record {
          pieces = Copies
              (0xc0 ∷ 0x3b ∷ 0x39 ∷ 0x98 ∷ 0 ∷ 0 ∷ 0 ∷ 1 ∷ 0 ∷ 0 ∷ 0 ∷ 2
              ∷ 0 ∷ 0 ∷ 0 ∷ 9 ∷ 0 ∷ 0 ∷ 0 ∷ 8
              ∷ replicate 16 0xaa ++ replicate 988 0)
              (record { block = 9; escaped = false; same_uuid = false; last = true } ∷ [])
              ((0x11 ∷ 0 ∷ 0 ∷ 0 ∷ 0 ∷ 0 ∷ 0 ∷ 0 ∷ []) ∷ []) ∷ [];
          commit = 0xc0 ∷ 0x3b ∷ 0x39 ∷ 0x98 ∷ 0 ∷ 0 ∷ 0 ∷ 2 ∷ 0 ∷ 0 ∷ 0 ∷ 2 ∷ replicate 1012 0;
        } }
{}

/// One copy of a block whose number has more than 32 bits.
pub fn text_of_one_copy_of_a_far_block()
    ensures { own_text (wide 1024) (replicate 16 0xaa) 2
        ((4294967301, Copy (0x11 ∷ 0 ∷ 0 ∷ 0 ∷ 0 ∷ 0 ∷ 0 ∷ 0 ∷ [])) ∷ [])
        ≡ record {
          pieces = Copies
              (0xc0 ∷ 0x3b ∷ 0x39 ∷ 0x98 ∷ 0 ∷ 0 ∷ 0 ∷ 1 ∷ 0 ∷ 0 ∷ 0 ∷ 2
              ∷ 0 ∷ 0 ∷ 0 ∷ 5 ∷ 0 ∷ 0 ∷ 0 ∷ 8 ∷ 0 ∷ 0 ∷ 0 ∷ 1
              ∷ replicate 16 0xaa ++ replicate 984 0)
              (record { block = 4294967301; escaped = false; same_uuid = false; last = true } ∷ [])
              ((0x11 ∷ 0 ∷ 0 ∷ 0 ∷ 0 ∷ 0 ∷ 0 ∷ 0 ∷ []) ∷ []) ∷ [];
          commit = 0xc0 ∷ 0x3b ∷ 0x39 ∷ 0x98 ∷ 0 ∷ 0 ∷ 0 ∷ 2 ∷ 0 ∷ 0 ∷ 0 ∷ 2 ∷ replicate 1012 0;
        } }
{}

/// A copy that begins with the magic has zeros in the log, and its tag says so. The replay restores it.
pub fn text_of_an_escaped_copy()
    ensures text { own_text (narrow 1024) (replicate 16 0xaa) 2
        ((20, Copy (0xc0 ∷ 0x3b ∷ 0x39 ∷ 0x98 ∷ 0 ∷ 0 ∷ 0 ∷ 7 ∷ [])) ∷ [])
        ≡ record {
          pieces = Copies
              (0xc0 ∷ 0x3b ∷ 0x39 ∷ 0x98 ∷ 0 ∷ 0 ∷ 0 ∷ 1 ∷ 0 ∷ 0 ∷ 0 ∷ 2
              ∷ 0 ∷ 0 ∷ 0 ∷ 0x14 ∷ 0 ∷ 0 ∷ 0 ∷ 9
              ∷ replicate 16 0xaa ++ replicate 988 0)
              (record { block = 20; escaped = true; same_uuid = false; last = true } ∷ [])
              ((0 ∷ 0 ∷ 0 ∷ 0 ∷ 0 ∷ 0 ∷ 0 ∷ 7 ∷ []) ∷ []) ∷ [];
          commit = 0xc0 ∷ 0x3b ∷ 0x39 ∷ 0x98 ∷ 0 ∷ 0 ∷ 0 ∷ 2 ∷ 0 ∷ 0 ∷ 0 ∷ 2 ∷ replicate 1012 0;
        } }
    ensures replayed { unescaped true (0 ∷ 0 ∷ 0 ∷ 0 ∷ 0 ∷ 0 ∷ 0 ∷ 7 ∷ []) ≡ 0xc0 ∷ 0x3b ∷ 0x39 ∷ 0x98 ∷ 0 ∷ 0 ∷ 0 ∷ 7 ∷ [] }
{}

/// Revokes alone: a revoke block and a commit block, without a descriptor.
pub fn text_of_revokes()
    ensures one { own_text (narrow 1024) (replicate 16 0xaa) 3
        ((7, Revoke) ∷ [])
        ≡ record {
          pieces = Revokes
              (0xc0 ∷ 0x3b ∷ 0x39 ∷ 0x98 ∷ 0 ∷ 0 ∷ 0 ∷ 5 ∷ 0 ∷ 0 ∷ 0 ∷ 3 ∷ 0 ∷ 0 ∷ 0 ∷ 0x14 ∷ 0 ∷ 0 ∷ 0 ∷ 7 ∷ replicate 1004 0)
              (7 ∷ []) ∷ [];
          commit = 0xc0 ∷ 0x3b ∷ 0x39 ∷ 0x98 ∷ 0 ∷ 0 ∷ 0 ∷ 2 ∷ 0 ∷ 0 ∷ 0 ∷ 3 ∷ replicate 1012 0;
        } }
    ensures two { own_text (narrow 1024) (replicate 16 0xaa) 3
        ((7, Revoke) ∷ (9, Revoke) ∷ [])
        ≡ record {
          pieces = Revokes
              (0xc0 ∷ 0x3b ∷ 0x39 ∷ 0x98 ∷ 0 ∷ 0 ∷ 0 ∷ 5 ∷ 0 ∷ 0 ∷ 0 ∷ 3 ∷ 0 ∷ 0 ∷ 0 ∷ 0x18 ∷ 0 ∷ 0 ∷ 0 ∷ 7 ∷ 0 ∷ 0 ∷ 0 ∷ 9 ∷ replicate 1000 0)
              (7 ∷ 9 ∷ []) ∷ [];
          commit = 0xc0 ∷ 0x3b ∷ 0x39 ∷ 0x98 ∷ 0 ∷ 0 ∷ 0 ∷ 2 ∷ 0 ∷ 0 ∷ 0 ∷ 3 ∷ replicate 1012 0;
        } }
{}

/// A revoke of a block whose number has more than 32 bits.
pub fn text_of_a_revoke_of_a_far_block()
    ensures { own_text (wide 1024) (replicate 16 0xaa) 3
        ((4294967301, Revoke) ∷ [])
        ≡ record {
          pieces = Revokes
              (0xc0 ∷ 0x3b ∷ 0x39 ∷ 0x98 ∷ 0 ∷ 0 ∷ 0 ∷ 5 ∷ 0 ∷ 0 ∷ 0 ∷ 3 ∷ 0 ∷ 0 ∷ 0 ∷ 0x18 ∷ 0 ∷ 0 ∷ 0 ∷ 1 ∷ 0 ∷ 0 ∷ 0 ∷ 5 ∷ replicate 1000 0)
              (4294967301 ∷ []) ∷ [];
          commit = 0xc0 ∷ 0x3b ∷ 0x39 ∷ 0x98 ∷ 0 ∷ 0 ∷ 0 ∷ 2 ∷ 0 ∷ 0 ∷ 0 ∷ 3 ∷ replicate 1012 0;
        } }
{}

/// Revoke blocks come before descriptors.
pub fn text_of_a_revoke_and_a_copy()
    ensures { own_text (narrow 1024) (replicate 16 0xaa) 2
        ((5, Copy (0x11 ∷ 0 ∷ 0 ∷ 0 ∷ 0 ∷ 0 ∷ 0 ∷ 0 ∷ [])) ∷ (9, Revoke) ∷ [])
        ≡ record {
          pieces = Revokes
              (0xc0 ∷ 0x3b ∷ 0x39 ∷ 0x98 ∷ 0 ∷ 0 ∷ 0 ∷ 5 ∷ 0 ∷ 0 ∷ 0 ∷ 2 ∷ 0 ∷ 0 ∷ 0 ∷ 0x14 ∷ 0 ∷ 0 ∷ 0 ∷ 9 ∷ replicate 1004 0)
              (9 ∷ [])
              ∷ Copies
              (0xc0 ∷ 0x3b ∷ 0x39 ∷ 0x98 ∷ 0 ∷ 0 ∷ 0 ∷ 1 ∷ 0 ∷ 0 ∷ 0 ∷ 2
              ∷ 0 ∷ 0 ∷ 0 ∷ 5 ∷ 0 ∷ 0 ∷ 0 ∷ 8
              ∷ replicate 16 0xaa ++ replicate 988 0)
              (record { block = 5; escaped = false; same_uuid = false; last = true } ∷ [])
              ((0x11 ∷ 0 ∷ 0 ∷ 0 ∷ 0 ∷ 0 ∷ 0 ∷ 0 ∷ []) ∷ []) ∷ [];
          commit = 0xc0 ∷ 0x3b ∷ 0x39 ∷ 0x98 ∷ 0 ∷ 0 ∷ 0 ∷ 2 ∷ 0 ∷ 0 ∷ 0 ∷ 2 ∷ replicate 1012 0;
        } }
{}

/// The last of 123 copies has a descriptor of its own, with the UUID.
pub fn text_of_123_copies()
    ensures { drop 1 (own_text (narrow 1024) (replicate 16 0xaa) 2 (map (λ b. (b, Copy (0x11 ∷ []))) (range_with_len 0 123))).pieces
        ≡ Copies
        (0xc0 ∷ 0x3b ∷ 0x39 ∷ 0x98 ∷ 0 ∷ 0 ∷ 0 ∷ 1 ∷ 0 ∷ 0 ∷ 0 ∷ 2
        ∷ 0 ∷ 0 ∷ 0 ∷ 122 ∷ 0 ∷ 0 ∷ 0 ∷ 8
        ∷ replicate 16 0xaa ++ replicate 988 0)
        (record { block = 122; escaped = false; same_uuid = false; last = true } ∷ [])
        ((0x11 ∷ []) ∷ []) ∷ [] }
{}

/// A transaction that touches no block is one commit block.
pub fn text_of_nothing()
    ensures { own_text (narrow 1024) (replicate 16 0xaa) 2 []
        ≡ record { pieces = []; commit = 0xc0 ∷ 0x3b ∷ 0x39 ∷ 0x98 ∷ 0 ∷ 0 ∷ 0 ∷ 2 ∷ 0 ∷ 0 ∷ 0 ∷ 2 ∷ replicate 1012 0 } }
{}

/// The most credits of one transaction in rings of 16, 32 and 1024 blocks.
pub fn capacities_of_rings()
    ensures smallest { IsCapacity (narrow 1024) 16 2 }
    ensures small { IsCapacity (narrow 1024) 32 6 }
    ensures large { IsCapacity (narrow 1024) 1024 252 }
    ensures smallest_of_64_bits { IsCapacity (wide 1024) 16 2 }
    ensures small_of_64_bits { IsCapacity (wide 1024) 32 6 }
    ensures large_of_64_bits { IsCapacity (wide 1024) 1024 251 }
{}

/// The log blocks of transactions: a descriptor has room for 122 tags, a revoke block for 252 numbers.
pub fn needs_of_transactions()
    ensures nothing { need (narrow 1024) 0 0 ≡ 1 }
    ensures one_revoke { need (narrow 1024) 0 1 ≡ 2 }
    ensures full_revoke_block { need (narrow 1024) 0 252 ≡ 2 }
    ensures two_revoke_blocks { need (narrow 1024) 0 253 ≡ 3 }
    ensures full_descriptor { need (narrow 1024) 122 0 ≡ 124 }
    ensures two_descriptors { need (narrow 1024) 123 0 ≡ 126 }
{}

/// With 64-bit numbers a descriptor has room for 81 tags, a revoke block for 126 numbers.
pub fn needs_with_numbers_of_64_bits()
    ensures full_revoke_block { need (wide 1024) 0 126 ≡ 2 }
    ensures two_revoke_blocks { need (wide 1024) 0 127 ≡ 3 }
    ensures full_descriptor { need (wide 1024) 81 0 ≡ 83 }
    ensures two_descriptors { need (wide 1024) 82 0 ≡ 85 }
    ensures two_unequal_descriptors { need (wide 1024) 123 0 ≡ 126 }
{}

/// The superblock of a newly formatted log of 33 blocks.
pub fn superblock_of_33_blocks()
    ensures { formatted_super 1024 33 (replicate 16 0xaa) false
        ≡ 0xc0 ∷ 0x3b ∷ 0x39 ∷ 0x98 ∷ 0 ∷ 0 ∷ 0 ∷ 4 ∷ 0 ∷ 0 ∷ 0 ∷ 0
        ∷ 0 ∷ 0 ∷ 4 ∷ 0 ∷ 0 ∷ 0 ∷ 0 ∷ 0x21
        ∷ 0 ∷ 0 ∷ 0 ∷ 1 ∷ 0 ∷ 0 ∷ 0 ∷ 1 ∷ 0 ∷ 0 ∷ 0 ∷ 0
        ∷ 0 ∷ 0 ∷ 0 ∷ 0
        ∷ 0 ∷ 0 ∷ 0 ∷ 0 ∷ 0 ∷ 0 ∷ 0 ∷ 1 ∷ 0 ∷ 0 ∷ 0 ∷ 0
        ∷ replicate 16 0xaa
        ++ 0 ∷ 0 ∷ 0 ∷ 1
        ∷ replicate 956 0 }
{}

/// The same with 64-bit block numbers: one more feature is set.
pub fn superblock_of_33_blocks_with_numbers_of_64_bits()
    ensures { formatted_super 1024 33 (replicate 16 0xaa) true
        ≡ 0xc0 ∷ 0x3b ∷ 0x39 ∷ 0x98 ∷ 0 ∷ 0 ∷ 0 ∷ 4 ∷ 0 ∷ 0 ∷ 0 ∷ 0
        ∷ 0 ∷ 0 ∷ 4 ∷ 0 ∷ 0 ∷ 0 ∷ 0 ∷ 0x21
        ∷ 0 ∷ 0 ∷ 0 ∷ 1 ∷ 0 ∷ 0 ∷ 0 ∷ 1 ∷ 0 ∷ 0 ∷ 0 ∷ 0
        ∷ 0 ∷ 0 ∷ 0 ∷ 0
        ∷ 0 ∷ 0 ∷ 0 ∷ 0 ∷ 0 ∷ 0 ∷ 0 ∷ 3 ∷ 0 ∷ 0 ∷ 0 ∷ 0
        ∷ replicate 16 0xaa
        ++ 0 ∷ 0 ∷ 0 ∷ 1
        ∷ replicate 956 0 }
{}
