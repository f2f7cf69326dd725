//! What follows from the definitions of batches and of bodies, and how a reading goes on batch by batch. These
//! functions run no code: their clauses are the laws, which `nm_writer` calls.

ghost use Rattle.std.specs.Prelude.{◌≡◌, ℕ, ◌<◌, IsTrue, List, [], ◌∷◌, ◌++◌, Ok, Option, Some, length};
ghost use Rattle.nm_base.specs.Limits.{full_bytes};
ghost use Rattle.nm_base.specs.declared.facts.Facts.{Facts};
ghost use Rattle.nm_maildir.specs.Observed.{ObservedMail};
ghost use Rattle.nm_maildir.specs.Tree.{Tree};
ghost use Rattle.nm_maildir.specs.declared.given.Given.{Given};
ghost use Rattle.nm_model_plan.specs.Plan.{all_added};
ghost use Rattle.nm_scan.specs.Batches.{HasReadBatch, HasReadBatches, HasReadSome, ReadsBatches, StopsInBatch, len_at_all};
ghost use Rattle.nm_base.specs.Order.{has_text, sorted};
ghost use Rattle.nm_scan.specs.Bodies.{left_after};
ghost use Rattle.nm_scan.specs.Walk.{scanned};
ghost use Rattle.nm_scan.specs.Mail.{IsMailAt, mail_of};
ghost use Rattle.nm_scan.specs.FileReads.{Reads, full_answers};

/// Batches are the reads of their paths in one: none is read twice, none is passed over, and no mail of one is lost.
pub fn batches_are_what_was_read()
    ensures { (tree : Option Tree) (given : List Given) (paths : List (List ℕ)) (batches : List (List (List ℕ × Facts))) (left : List (List ℕ))
        → ReadsBatches tree given paths batches left
        → (read : List (List ℕ)) × (paths ≡ read ++ left) × Reads tree given read (all_added batches) }
{}

/// Fewer than 256 paths with less than 67,108,864 bytes are read in one batch.
pub fn few_small_files_are_one_batch()
    ensures { (tree : Tree) (given : List Given) (paths : List (List ℕ)) (batches : List (List (List ℕ × Facts))) → 0 < length paths
        → length paths < full_answers → len_at_all tree paths < full_bytes → ReadsBatches (Some tree) given paths batches [] → length batches ≡ 1 }
{}

/// Before the first batch nothing is read.
pub fn no_batch_is_read_at_first()
    ensures { (mail : ObservedMail) (given : List Given) (paths : List (List ℕ)) → HasReadBatches mail mail given given paths [] paths }
{}

/// One batch more is read of the paths that are left.
pub fn a_batch_more_is_read()
    ensures { (old mid new : ObservedMail) (old_given mid_given new_given : List Given) (paths : List (List ℕ)) (batches : List (List (List ℕ × Facts)))
        (left rest : List (List ℕ)) (added : List (List ℕ × Facts)) → HasReadBatches old mid old_given mid_given paths batches left
        → HasReadBatch mid new mid_given new_given left rest added
        → HasReadBatches old new old_given new_given paths (batches ++ added ∷ []) rest }
{}

/// Between two batches no batch is unfinished.
pub fn batches_are_finished()
    ensures { (old new : ObservedMail) (old_given new_given : List Given) (paths : List (List ℕ)) (batches : List (List (List ℕ × Facts)))
        (left : List (List ℕ)) → HasReadBatches old new old_given new_given paths batches left
        → HasReadSome old new old_given new_given paths batches left }
{}

/// Where the reading stops in a batch, those before it stay.
pub fn a_batch_that_stops_is_unfinished()
    ensures { (old mid new : ObservedMail) (old_given mid_given new_given : List Given) (paths : List (List ℕ)) (batches : List (List (List ℕ × Facts)))
        (left : List (List ℕ)) → HasReadBatches old mid old_given mid_given paths batches left → StopsInBatch mid new mid_given new_given left
        → HasReadSome old new old_given new_given paths batches left }
{}

/// A walk that passes no limit lists what it met, each path once, and that is the mail of the tree: all of it, and nothing else.
pub fn a_walk_lists_the_mail_of_the_tree()
    ensures met { (tree : Tree) (listed : List (List ℕ)) → scanned tree ≡ Ok listed → listed ≡ sorted (mail_of tree) }
    ensures mail { (tree : Tree) (path : List ℕ) → IsTrue (has_text (mail_of tree) path) → IsMailAt tree path }
    ensures all { (tree : Tree) (listed : List (List ℕ)) (path : List ℕ) → scanned tree ≡ Ok listed → IsMailAt tree path → IsTrue (has_text (mail_of tree) path) }
{}

/// What some answers leave, less what others bring, is what all of them leave.
pub fn bytes_left_go_down_in_turn()
    ensures { (left : ℕ) (before after : List Given) → left_after left (before ++ after) ≡ left_after (left_after left before) after }
{}
