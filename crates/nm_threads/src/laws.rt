//! What follows from the definitions. These functions run no code: their clauses are the laws, which `nm_parts` calls.

ghost use Rattle.std.specs.Prelude.{◌≡◌, ◌+◌, ◌*◌, ◌≤◌, ◌↔◌, ◌⊎◌, ◌∷◌, ℕ, List, length, Some, IsTrue, IsSome, Contains};
ghost use Rattle.nm_base.specs.declared.facts.LinkRow.{LinkRow};
ghost use Rattle.nm_threads.specs.Labels.{AreLabelsOf, Label, numbered};
ghost use Rattle.nm_threads.specs.Same.{Same, Touches, is_same, stand_together};
ghost use Rattle.nm_threads.specs.Work.{Doubles, potential};
ghost use Rattle.nm_threads.specs.Name.{AreDistinct, thread_name};

/// Every id is of one thread with itself, and with what those of its thread are of one thread with.
pub fn same_is_an_equivalence()
    ensures itself { (rows : List LinkRow) (a : List ℕ) → Same rows a a }
    ensures turned { (rows : List LinkRow) (a b : List ℕ) → Same rows a b → Same rows b a }
    ensures through { (rows : List LinkRow) (a b c : List ℕ) → Same rows a b → Same rows b c → Same rows a c }
    ensures beside { (rows : List LinkRow) (a b : List ℕ) → IsTrue (stand_together rows a b) → Same rows a b }
{}

/// With a row more, ids are of one thread where they were before, or where the row has an id of the thread of each.
pub fn a_row_joins_the_threads_of_its_ids()
    ensures { (rows : List LinkRow) (row : LinkRow) (a b : List ℕ) → Same (row ∷ rows) a b ↔ (Same rows a b ⊎ (Touches rows row a × Touches rows row b)) }
{}

/// Rows in another order, or given twice, form the same threads; so does no row fewer.
pub fn the_order_of_rows_is_nothing()
    ensures { (rows others : List LinkRow) (a b : List ℕ) → ((row : LinkRow) → Contains rows row → Contains others row) → Same rows a b → Same others a b }
{}

/// The test says whether there is a chain.
pub fn same_is_what_is_computed()
    ensures { (rows : List LinkRow) (a b : List ℕ) → IsTrue (is_same rows a b) ↔ Same rows a b }
{}

/// The name of a thread is a number of one of its ids, and none of them has a smaller one; a thread with a number has a name.
pub fn the_name_is_the_least_number()
    ensures one { (rows : List LinkRow) (entries : List (List ℕ × ℕ)) (a : List ℕ) (n : ℕ) → thread_name rows entries a ≡ Some n → (id : List ℕ) × Contains entries (id, n) × Same rows a id }
    ensures none_below { (rows : List LinkRow) (entries : List (List ℕ × ℕ)) (a id : List ℕ) (n m : ℕ) → thread_name rows entries a ≡ Some n → Contains entries (id, m) → Same rows a id → n ≤ m }
    ensures named { (rows : List LinkRow) (entries : List (List ℕ × ℕ)) (a id : List ℕ) (m : ℕ) → Contains entries (id, m) → Same rows a id → IsSome (thread_name rows entries a) }
{}

/// Ids with numbers have one name exactly where they are of one thread.
pub fn a_thread_has_one_name()
    ensures { (rows : List LinkRow) (entries : List (List ℕ × ℕ)) (a b : List ℕ) (m n : ℕ) → AreDistinct entries → Contains entries (a, m) → Contains entries (b, n) → (thread_name rows entries a ≡ thread_name rows entries b) ↔ Same rows a b }
{}

/// Labels of some rows are labels of the same rows in any order.
pub fn labels_know_no_order_of_rows()
    ensures { (rows others : List LinkRow) (labels : List Label) → ((row : LinkRow) → Contains rows row → Contains others row) → ((row : LinkRow) → Contains others row → Contains rows row) → AreLabelsOf rows labels → AreLabelsOf others labels }
{}

/// The next number never falls, and rises by one for each id at most.
pub fn numbers_rise_by_at_most_one_an_id()
    ensures low { (entries : List (List ℕ × ℕ)) (next : ℕ) (ids : List (List ℕ)) → next ≤ (numbered entries next ids).1 }
    ensures high { (entries : List (List ℕ × ℕ)) (next : ℕ) (ids : List (List ℕ)) → (numbered entries next ids).1 ≤ next + length ids }
{}

/// For any number that rises by one where its argument is doubled, the potential is at most n times that of n, for n ids.
pub fn the_potential_of_n_ids_is_at_most_n_log_n()
    ensures { (f : ℕ → ℕ) (labels : List Label) → Doubles f → potential f labels ≤ length labels * f (length labels) }
{}
