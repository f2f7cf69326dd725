//! What follows from the definitions of the order and the parts of what a search prints. No code calls these
//! functions: their clauses are the laws.

ghost use Rattle.std.specs.Prelude.{◌≡◌, ℕ, ℤ, Bool, true, false, not, List, [], ◌∷◌, filter, Option, nat_eq};
ghost use Rattle.std.specs.List.{IsDistinct, list_any};
ghost use Rattle.nm_model_answer.specs.Listing.{by_rank, each_once, part_of};
ghost use Rattle.nm_model_answer.specs.Orders.{Falls, IsByRank, IsPart, Rises, is_ranked};
ghost use Rattle.nm_model_answer.specs.Search.{message_date, ordered};
ghost use Rattle.nm_model_index.specs.declared.base.Base.{Base};

/// A list in the order of a rank has the items by rising rank, and those of one rank in their order: of each rank the same
/// items as before.
pub fn items_of_one_rank_stay_in_their_order()
    ensures { (rank : List ℕ → ℤ) (items : List (List ℕ)) → IsByRank rank items (by_rank rank items) }
{}

/// An offset and a limit cut one part out of a list.
pub fn an_offset_and_a_limit_cut_a_part()
    ensures { (offset : ℕ) (limit : Option ℕ) (items : List (List ℕ)) → IsPart offset limit items (part_of offset limit items) }
{}

/// Each thread that has a match is listed, and is listed once.
pub fn each_thread_is_told_once()
    ensures once { (names : List ℕ) → IsDistinct nat_eq (each_once nat_eq names) }
    ensures same { (names : List ℕ) (name : ℕ) → list_any (nat_eq name) (each_once nat_eq names) ≡ list_any (nat_eq name) names }
{}

/// The thread of the first message is listed first, and after it those of the other messages in their order, without
/// it.
pub fn threads_stand_where_their_first_messages_do()
    ensures none { each_once nat_eq [] ≡ [] }
    ensures first { (name : ℕ) (names : List ℕ) → each_once nat_eq (name ∷ names) ≡ name ∷ filter (λ other. not (nat_eq name other)) (each_once nat_eq names) }
{}

/// Messages are listed from the newest to the oldest, or the other way where that is asked; those of one date stay in their
/// order.
pub fn messages_are_told_by_date()
    ensures newest { (index : Base) (ids : List (List ℕ)) → Falls (message_date index) (ordered index false ids) }
    ensures oldest { (index : Base) (ids : List (List ℕ)) → Rises (message_date index) (ordered index true ids) }
    ensures same { (index : Base) (oldest : Bool) (ids : List (List ℕ)) (date : ℤ) → filter (is_ranked (message_date index) date) (ordered index oldest ids) ≡ filter (is_ranked (message_date index) date) ids }
{}
