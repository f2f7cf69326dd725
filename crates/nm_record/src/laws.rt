//! What follows from the definitions. These functions run no code: their clauses are the laws, which `nm_state` calls.

ghost use Rattle.std.specs.Prelude.{◌≡◌, ◌+◌, length};
ghost use Rattle.std.specs.List.{sum_by};
ghost use Rattle.nm_model_index.specs.Index.{row_bytes};
ghost use Rattle.nm_model_index.specs.declared.base.Base.{Base};
ghost use Rattle.nm_record.specs.BaseBytes.{base_len, entry_bytes};
ghost use Rattle.nm_record.specs.Commits.{arrival_grammar, tagging_grammar};

/// An index takes 32 bytes, and what each file, kept row, number and set of tags takes.
pub fn a_base_takes_what_its_parts_take()
    ensures { (index : Base) → base_len index ≡ 32 + sum_by (λ file. length (arrival_grammar.bytes file)) index.files + sum_by (λ row. length (row_bytes row)) index.kept
        + sum_by (λ entry. length (entry_bytes entry)) index.entries + sum_by (λ tagged. length (tagging_grammar.bytes tagged)) index.tags }
{}
