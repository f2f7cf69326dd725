//! What follows from the definitions. These functions run no code: their clauses are the laws, which segments call.

ghost use Rattle.std.specs.Prelude.{◌≡◌, ◌≤◌, ◌+◌, ◌*◌, ◌∷◌, [], ◌++◌, ℕ, List, length, take, drop, IsTrue};
ghost use Rattle.nm_blocks.specs.declared.hit.Hit.{Hit};
ghost use Rattle.nm_blocks.specs.Blocks.{IsRun, block_bytes, run_hits};
ghost use Rattle.nm_blocks.specs.Hits.{IsBlock, is_before, is_rising};

/// What was packed is read again.
pub fn a_block_is_read_again()
    ensures { (hits : List Hit) → IsBlock hits → IsRun (block_bytes hits) hits }
{}

/// Whole blocks are read as their hits, up to the end of the bytes.
pub fn whole_blocks_are_read()
    ensures { (bytes : List ℕ) (hits : List Hit) → IsRun bytes hits → run_hits bytes ≡ hits }
{}

/// The bytes of blocks put one after the other are blocks of the hits of both.
pub fn blocks_are_joined_by_their_bytes()
    ensures none { IsRun [] [] }
    ensures both { (front back : List ℕ) (hits others : List Hit) → IsRun front hits → IsRun back others → IsRun (front ++ back) (hits ++ others) }
{}

/// A block has one spelling: equal bytes are of equal hits.
pub fn equal_blocks_are_of_equal_hits()
    ensures { (hits others : List Hit) → IsBlock hits → IsBlock others → block_bytes hits ≡ block_bytes others → hits ≡ others }
{}

/// A hit takes 15 bytes at most.
pub fn a_block_is_short()
    ensures { (hits : List Hit) → length (block_bytes hits) ≤ 15 * length hits + 1 }
{}

/// Hits that begin after the last one of others rise with them; of rising hits those in front rise, and those after.
pub fn rising_hits_are_joined_and_cut()
    ensures joined { (hits : List Hit) (last next : Hit) (others : List Hit) → IsTrue (is_rising (hits ++ last ∷ [])) → IsTrue (is_before last next) → IsTrue (is_rising (next ∷ others)) → IsTrue (is_rising ((hits ++ last ∷ []) ++ next ∷ others)) }
    ensures front { (hits : List Hit) (n : ℕ) → IsTrue (is_rising hits) → IsTrue (is_rising (take n hits)) }
    ensures back { (hits : List Hit) (n : ℕ) → IsTrue (is_rising hits) → IsTrue (is_rising (drop n hits)) }
{}

/// Three hits in bytes.
pub fn hits_in_bytes()
    ensures { block_bytes (record { doc = 5; list = 0; place = 300 } ∷ record { doc = 5; list = 0; place = 302 } ∷ record { doc = 6; list = 1; place = 0 } ∷ [])
        ≡ 0x03 ∷ 0x05 ∷ 0x00 ∷ 0xac ∷ 0x02 ∷ 0x00 ∷ 0x00 ∷ 0x02 ∷ 0x01 ∷ 0x01 ∷ 0x00 ∷ [] }
{}
