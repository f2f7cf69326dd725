//! What follows from the definitions. No code calls these functions: their clauses are the laws.
ghost use Rattle.std.specs.Prelude.{◌≡◌, [], ◌∷◌, ◌++◌, ◌||◌, Bool, List, ℕ, false, map, true};
ghost use Rattle.std.specs.Char.{to_ascii_lowercase};
ghost use Rattle.std.specs.List.{concat, list_all, list_any};
ghost use Rattle.nm_base.specs.MessageId.{is_message_id};
ghost use Rattle.nm_header.specs.Addresses.{ends_mailbox, is_bare, nameless};
ghost use Rattle.nm_header.specs.Fields.{continues, header_of, is_name};
ghost use Rattle.nm_header.specs.Ids.{ids_of};
ghost use Rattle.nm_header.specs.Laws.{folded, is_line_end, put_together, written};
ghost use Rattle.nm_header.specs.Mailboxes.{mailbox_lexemes_of, mailboxes_of};
ghost use Rattle.nm_header.specs.WrittenMailboxes.{WrittenMailbox, is_unquoted_byte, is_writable, written_mailbox, written_mailboxes, written_name};
ghost use Rattle.nm_header.specs.Comments.{lexemes_of};
ghost use Rattle.nm_text.specs.Cuts.{is_byte};
ghost use Rattle.nm_text.specs.Lines.{is_one_line};
ghost use Rattle.nm_text.specs.WhiteSpace.{trimmed};

use nm_text::nothing_is_cut_away;

/// The lexemes of a text with comments, and those of a text of mailboxes, are a cut of it: joined they are the text.
pub fn nothing_is_lost()
    ensures lexemes { (bytes : List ℕ) → concat (lexemes_of bytes) ≡ bytes }
    ensures mailbox_lexemes { (bytes : List ℕ) → concat (mailbox_lexemes_of bytes) ≡ bytes }
{
    nothing_is_cut_away();
}

/// The lines of a header, the empty line after it and the body are all the bytes of a mail.
pub fn a_mail_is_its_header_and_its_body()
    ensures { (bytes : List ℕ) → put_together bytes ≡ bytes }
{
    nothing_is_cut_away();
}

/// Ids that are written in angles with blanks between are read again.
pub fn written_ids_are_read()
    ensures { (ids : List (List ℕ)) → list_all is_message_id ids ≡ true → ids_of (written ids) ≡ ids }
{}

/// Mailboxes that are written `name <address>`, with `, ` between, are read again in their order, the names in quotes or as they are.
pub fn written_mailboxes_are_read()
    ensures { (written : List WrittenMailbox) → list_all is_writable written ≡ true → mailboxes_of (written_mailboxes written) ≡ map (λ one. one.mailbox) written }
{}

/// An address that is alone, without `<..>`, is a mailbox without a name.
pub fn an_address_alone_is_a_mailbox()
    ensures { (address : List ℕ) → is_bare address ≡ true → mailboxes_of address ≡ nameless address ∷ [] }
{}

/// A mailbox ends at a `,` or a `;`, and what comes after that is read as if it were alone. Between two of them nothing may be, and
/// a space before a mailbox counts for nothing.
pub fn mailboxes_end_at_separators()
    ensures named { (written : WrittenMailbox) (end : ℕ) (rest : List ℕ) → is_writable written ≡ true → ends_mailbox end ≡ true → mailboxes_of (written_mailbox written ++ end ∷ rest) ≡ written.mailbox ∷ mailboxes_of rest }
    ensures alone { (address : List ℕ) (end : ℕ) (rest : List ℕ) → is_bare address ≡ true → ends_mailbox end ≡ true → mailboxes_of (address ++ end ∷ rest) ≡ nameless address ∷ mailboxes_of rest }
    ensures nothing { (end : ℕ) (rest : List ℕ) → ends_mailbox end ≡ true → mailboxes_of (end ∷ rest) ≡ mailboxes_of rest }
    ensures space { (rest : List ℕ) → mailboxes_of (32 ∷ rest) ≡ mailboxes_of rest }
{}

/// The name of a group, up to its `:`, is no mailbox: a group `name: a, b;` has the mailboxes of its members.
pub fn a_group_is_its_mailboxes()
    ensures name { (is_quoted : Bool) (name rest : List ℕ) → (is_quoted || list_all is_unquoted_byte name) ≡ true → mailboxes_of (written_name is_quoted name ++ 58 ∷ rest) ≡ mailboxes_of rest }
    ensures members { (is_quoted : Bool) (name rest : List ℕ) (members : List WrittenMailbox) → (is_quoted || list_all is_unquoted_byte name) ≡ true → list_all is_writable members ≡ true
        → mailboxes_of (written_name is_quoted name ++ 58 ∷ 32 ∷ (written_mailboxes members ++ 59 ∷ rest)) ≡ map (λ one. one.mailbox) members ++ mailboxes_of rest }
{}

/// No body of a field has an LF, however many lines the field had.
pub fn a_body_has_no_line_feed()
    ensures { (bytes : List ℕ) → list_all (λ field. is_one_line field.body) (header_of bytes).list ≡ true }
{}

/// A body that is folded before a space or tab is read as it was (RFC 5322, section 2.2.3).
pub fn a_folded_body_is_read_whole()
    ensures { (name front back : List ℕ) → is_name name ≡ true → list_any (is_byte 58) name ≡ false → list_any is_line_end (front ++ back) ≡ false → continues back ≡ true → trimmed (front ++ back) ≡ front ++ back → (header_of (folded name front back)).list ≡ (record { name = map to_ascii_lowercase name; body = front ++ back }) ∷ [] }
{}
