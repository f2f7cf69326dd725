//! What operations on tags come to. These functions run no code: their clauses are the laws, which `nm_flags`,
//! `nm_model_plan` and `nm_dump` call.

ghost use Rattle.std.specs.Prelude.{◌≡◌, ℕ, true, false, List, ◌∷◌, ◌++◌, Some};
ghost use Rattle.std.specs.Str.{is_utf8};
ghost use Rattle.hex.specs.Hex.{IsBytes};
ghost use Rattle.nm_base.specs.Tag.{is_tag};
ghost use Rattle.nm_base.specs.Order.{IsSorted};
ghost use Rattle.nm_base.specs.Tags.{has_tag};
ghost use Rattle.nm_base.specs.declared.tag_op.TagOp.{TagOp};
ghost use Rattle.nm_tags.specs.Decoding.{decoded_tag};
ghost use Rattle.nm_tags.specs.Encoding.{encoded_tag};
ghost use Rattle.nm_tags.specs.Operations.{after_ops, is_named};

/// Of the operations that name a tag the last one decides whether it is set.
pub fn the_last_operation_on_a_tag_decides()
    ensures { (tags : List (List ℕ)) (before after : List TagOp) (op : TagOp) → IsSorted tags
        → is_named op.tag after ≡ false → has_tag (after_ops tags (before ++ op ∷ after)) op.tag ≡ op.add }
{}

/// A tag that no operation names is set where it was.
pub fn a_tag_that_no_operation_names_stays()
    ensures { (tags : List (List ℕ)) (ops : List TagOp) (tag : List ℕ) → IsSorted tags
        → is_named tag ops ≡ false → has_tag (after_ops tags ops) tag ≡ has_tag tags tag }
{}

/// Tags in order stay in order, each once.
pub fn tags_stay_in_order()
    ensures { (tags : List (List ℕ)) (ops : List TagOp) → IsSorted tags → IsSorted (after_ops tags ops) }
{}

/// A tag is read as it was written.
pub fn a_written_tag_is_read_back()
    ensures { (tag : List ℕ) → IsBytes tag → is_utf8 tag ≡ true → is_tag tag ≡ true → decoded_tag (encoded_tag tag) ≡ Some tag }
{}
