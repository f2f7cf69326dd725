//! What follows from the definitions of commands. These functions run no code: their clauses are the laws, which
//! `nm_log` calls.

ghost use Rattle.std.specs.Prelude.{◌≡◌, ◌≢◌, ◌↔◌, ◌⊎◌, ℕ, true, false, List, ◌∷◌, ◌++◌, Ok, Err, Some};
ghost use Rattle.std.specs.List.{All, before_first, list_all, slice_split};
ghost use Rattle.nm_base.specs.declared.refusals.UsageKind.{UsageKind};
ghost use Rattle.nm_text.specs.Cuts.{is_byte};
ghost use Rattle.nm_command.specs.Grammar.{IsOption, IsRefused, IsRequest};
ghost use Rattle.nm_command.specs.LeadingOptions.{are_options, cut_option, is_command, is_option, leading_of, told_by};
ghost use Rattle.nm_command.specs.Options.{begins_with_dashes, read_options};
ghost use Rattle.nm_command.specs.Requests.{query_of, request_of, request_with};
ghost use Rattle.nm_command.specs.Settings.{is_given, nothing_set, with_setting};
ghost use Rattle.nm_command.specs.RequestWords.{can_be_asked, can_be_told, in_words, leading_words_of, request_words};
ghost use Rattle.nm_command.specs.Table.{commands, meaning_of, options_of, values_of};
ghost use Rattle.nm_command.specs.declared.command_error.CommandError.TheVariants.{Usage};
ghost use Rattle.nm_command.specs.declared.leading_options.HeadError.TheVariants.{Usage as OutOfForm};
ghost use Rattle.nm_command.specs.declared.leading_options.Leading.{Leading};
ghost use Rattle.nm_command.specs.declared.request.Request.{Request};
ghost use Rattle.nm_command.specs.declared.settings.Setting.{Setting};
ghost use Rattle.nm_command.specs.declared.settings.Settings.{Settings};
ghost use Rattle.nm_command.specs.declared.table.CommandName.{CommandName};
ghost use Rattle.nm_command.specs.declared.table.Form.TheVariants.{OneOf};
ghost use Rattle.nm_command.specs.declared.table.Values.{Values};

/// Words ask for what the grammar says, and are refused where it says, for the word and the reason that it says.
pub fn words_are_read_as_the_grammar_says()
    ensures request { (words : List (List ℕ)) → (request : Request) → (request_of words ≡ Ok request) ↔ IsRequest words request }
    ensures refusal { (words : List (List ℕ)) → (word : List ℕ) → (kind : UsageKind) → (request_of words ≡ Err (Usage word kind)) ↔ IsRefused words word kind }
{}

/// By the grammar any words ask for one thing or are refused at one word for one reason, and never both.
pub fn words_have_one_answer()
    ensures one { (words : List (List ℕ)) → ((request : Request) × IsRequest words request) ⊎ ((word : List ℕ) × (kind : UsageKind) × IsRefused words word kind) }
    ensures request { (words : List (List ℕ)) → (first : Request) → (second : Request) → IsRequest words first → IsRequest words second → first ≡ second }
    ensures refusal { (words : List (List ℕ)) → (word : List ℕ) → (other : List ℕ) → (kind : UsageKind) → (another : UsageKind) → IsRefused words word kind → IsRefused words other another → (word ≡ other) × (kind ≡ another) }
    ensures never_both { (words : List (List ℕ)) → (request : Request) → (word : List ℕ) → (kind : UsageKind) → IsRequest words request → ¬ IsRefused words word kind }
{}

/// An option of a name that was there is given already, whatever its value, and one of another name is not.
pub fn an_option_stands_once()
    ensures nothing { (setting : Setting) → is_given nothing_set setting ≡ false }
    ensures same { (command : CommandName) → (settings : Settings) → (word : List ℕ) → (other : List ℕ) → (first : Setting) → (second : Setting) → IsOption command word first → IsOption command other second →
        before_first (is_byte 61) word ≡ before_first (is_byte 61) other → is_given (with_setting settings first) second ≡ true }
    ensures another { (command : CommandName) → (settings : Settings) → (word : List ℕ) → (other : List ℕ) → (first : Setting) → (second : Setting) → IsOption command word first → IsOption command other second →
        before_first (is_byte 61) word ≢ before_first (is_byte 61) other → is_given (with_setting settings first) second ≡ is_given settings second }
{}

/// The first value of an option says what holds without it.
pub fn the_first_value_is_the_default()
    ensures { (command : CommandName) → (name : List ℕ) → (value : List ℕ) → (which : Values) → (first : Setting) → (more : List (List ℕ × Setting)) → (words : List (List ℕ)) →
        meaning_of name (options_of command) ≡ Some (OneOf which) → values_of which ≡ (value, first) ∷ more →
        request_with command (with_setting nothing_set first) words ≡ request_with command nothing_set words }
{}

/// A request that is written out with all its options is read back, and words ask for no other requests than those.
pub fn a_request_that_is_written_out_is_read_back()
    ensures back { (request : Request) → can_be_asked request ≡ true → request_of (request_words request) ≡ Ok request }
    ensures only { (words : List (List ℕ)) → (request : Request) → request_of words ≡ Ok request → can_be_asked request ≡ true }
{}

/// Words without a space are what is between the spaces of their query.
pub fn a_query_keeps_its_words()
    ensures { (word : List ℕ) → (words : List (List ℕ)) → All (λ word. All (λ b. b ≢ 32) word) (word ∷ words) → slice_split (is_byte 32) (query_of (word ∷ words)) ≡ word ∷ words }
{}

/// Options of different names that follow each other may change places.
pub fn options_may_change_places()
    ensures options { (command : CommandName) → (settings : Settings) → (word : List ℕ) → (other : List ℕ) → (words : List (List ℕ)) → (first : Setting) → (second : Setting) →
        IsOption command word first → IsOption command other second → before_first (is_byte 61) word ≢ before_first (is_byte 61) other →
        is_given settings first ≡ false → is_given settings second ≡ false → read_options command settings (word ∷ other ∷ words) ≡ read_options command settings (other ∷ word ∷ words) }
    ensures request { (command : CommandName) → (name : List ℕ) → (word : List ℕ) → (other : List ℕ) → (words : List (List ℕ)) → (first : Setting) → (second : Setting) →
        meaning_of name commands ≡ Some command → IsOption command word first → IsOption command other second → before_first (is_byte 61) word ≢ before_first (is_byte 61) other →
        request_of (name ∷ word ∷ other ∷ words) ≡ request_of (name ∷ other ∷ word ∷ words) }
{}

/// Leading options are read as they were written before a command, in any order, and what they can say is read back.
pub fn leading_options_are_read_as_written()
    ensures told { (options : List (List ℕ × List ℕ)) → (words : List (List ℕ)) → are_options options ≡ true → is_command words ≡ true →
        leading_of (in_words options ++ words) ≡ Ok (told_by options) }
    ensures back { (leading : Leading) → (words : List (List ℕ)) → can_be_told leading ≡ true → is_command words ≡ true → leading_of (in_words (leading_words_of leading) ++ words) ≡ Ok leading }
{}

/// A leading option of a name that was there is refused, whatever is between and after, and so is a leading word that is no option.
pub fn leading_words_are_refused()
    ensures repeated { (before : List (List ℕ)) → (word : List ℕ) → (between : List (List ℕ)) → (other : List ℕ) → (after : List (List ℕ)) →
        list_all begins_with_dashes (before ++ word ∷ between) ≡ true → begins_with_dashes other ≡ true → before_first (is_byte 61) word ≡ before_first (is_byte 61) other →
        leading_of ((before ++ word ∷ between) ++ other ∷ after) ≡ Err OutOfForm }
    ensures out_of_form { (before : List (List ℕ)) → (word : List ℕ) → (after : List (List ℕ)) → list_all begins_with_dashes before ≡ true → begins_with_dashes word ≡ true →
        is_option (cut_option word) ≡ false → leading_of (before ++ word ∷ after) ≡ Err OutOfForm }
{}
