//! Laws of the definitions that the calls are stated by. No code calls these functions: the contract is the law.

ghost use Rattle.std.specs.Prelude.{◌≡◌, ◌++◌, ◌∷◌, ℕ, Bool, List, false, true};
ghost use Rattle.base64.specs.Engines.{standard};
ghost use Rattle.base64.specs.GeneralPurpose.{encode_of};
ghost use Rattle.nm_text.specs.WhiteSpace.{is_all_white_space};
ghost use Rattle.nm_decode.specs.Base64.{base64_of};
ghost use Rattle.nm_decode.specs.EncodedWords.{words_decoded};
ghost use Rattle.nm_decode.specs.Laws.{IsUnencodedTest, IsQTest, IsWordOf, b_word, has_mark, q_word, quoted_line};
ghost use Rattle.nm_decode.specs.QuotedPrintable.{quoted_of};

/// A text without `=?` stays as it is.
pub fn a_text_without_words_stays(text: &[u8])
    requires { has_mark text.now ≡ false }
    ensures { words_decoded text.now ≡ text.now }
{
    let _ = text;
}

/// The standard encoding (RFC 4648, section 4) of bytes reads back as the bytes.
pub fn base64_reads_back(bytes: &[u8])
    ensures { base64_of (encode_of standard bytes.now) ≡ bytes.now }
{
    let _ = bytes;
}

/// Bytes in quoted-printable (RFC 2045, section 6.7) read back as the bytes, whichever of them represent themselves, and
/// the soft break after them vanishes.
pub fn quoted_printable_reads_back(bytes: &[u8], after: &[u8])
    ensures { (unencoded : ℕ → Bool) → IsUnencodedTest unencoded
        → quoted_of (quoted_line unencoded bytes.now ++ 61 ∷ 10 ∷ after.now) ≡ bytes.now ++ quoted_of after.now }
{
    let _ = bytes;
    let _ = after;
}

/// Any text as one encoded word in B reads back as the text.
pub fn a_b_word_reads_back(text: &str)
    ensures { words_decoded (b_word text.now) ≡ text.now }
{
    let _ = text.as_bytes();
}

/// Any text as one encoded word in Q reads back as the text, whichever of its bytes represent themselves.
pub fn a_q_word_reads_back(text: &str)
    ensures { (unencoded : ℕ → Bool) → IsQTest unencoded → words_decoded (q_word unencoded text.now) ≡ text.now }
{
    let _ = text.as_bytes();
}

/// White space between two encoded words goes, and their texts are joined; beside other text it stays.
pub fn white_space_between_words_goes()
    ensures between { (first second a b gap after : List ℕ) → IsWordOf first a → IsWordOf second b → is_all_white_space gap ≡ true
        → has_mark after ≡ false → words_decoded (first ++ (gap ++ (second ++ after))) ≡ a ++ (b ++ after) }
    ensures beside_text { (word text after : List ℕ) → IsWordOf word text → has_mark after ≡ false
        → words_decoded (word ++ after) ≡ text ++ after }
{}

/// Text beside encoded words stays where it is: before them, after them, and between two where it isn't white space alone.
pub fn text_around_words_stays()
    ensures before { (before word text after : List ℕ) → IsWordOf word text → has_mark before ≡ false → has_mark after ≡ false
        → words_decoded (before ++ (word ++ after)) ≡ before ++ (text ++ after) }
    ensures between { (before first second a b gap after : List ℕ) → IsWordOf first a → IsWordOf second b → has_mark before ≡ false → has_mark gap ≡ false → is_all_white_space gap ≡ false
        → has_mark after ≡ false → words_decoded (before ++ (first ++ (gap ++ (second ++ after)))) ≡ before ++ (a ++ (gap ++ (b ++ after))) }
{}
