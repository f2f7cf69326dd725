//! The documents of a segment that have words, in lists of one field or of any: `documents` goes over segments so.

ghost use Rattle.std.specs.Prelude.{◌≡◌, ◌≢◌, ◌≤◌, ℕ, List, [], ◌∷◌, None, Some, false, IfOk};
ghost use Rattle.nm_cursor.specs.Sets.{IsRising};
ghost use Rattle.nm_lookup.specs.Lookup.{WalkSteps, numbers_having};
ghost use Rattle.nm_phrase.specs.Found.{numbers_with};
ghost use Rattle.nm_base.specs.declared.facts.Field.{Field};

use crate::AskedWords;
use crate::one_word::{only_word, with_word};
use nm_base::{Field, Many, NoMemory, Steps};
use nm_cursor::{Either, Rising, collect, set_laws};
use nm_phrase::{Phrase, Start};
use nm_segment::Segment;
use std::alloc::Global;
use std::sync::ledger::Ledger;

/// The documents that have the words, in order.
pub(crate) fn in_segment<L: Ledger>(
    alloc: Global,
    segment: &Segment,
    asked: &AskedWords<'_>,
    steps: &mut Steps<L>,
) -> Result<Many<u32>, NoMemory>
    requires some { asked.now.words.now ≢ [] }
    ensures found { IfOk result (λ docs. docs ≡ numbers_having asked.now.field asked.now.starts asked.now.words.now segment.now) }
    ensures one_word { (word : List ℕ) (field : Field) → asked.now.field ≡ Some field → asked.now.starts ≡ false → asked.now.words.now ≡ word ∷ []
        → IfOk result (λ _. WalkSteps segment.now word field steps.old steps.new) }
    ensures steps { steps.old ≤ steps.new }
{
    match asked.field {
        Some(field) => in_field(alloc, segment, field, asked, steps),
        None => in_any_field(alloc, segment, asked, steps),
    }
}

/// The documents that have the words in a list of this field.
fn in_field<L: Ledger>(
    alloc: Global,
    segment: &Segment,
    field: Field,
    asked: &AskedWords<'_>,
    steps: &mut Steps<L>,
) -> Result<Many<u32>, NoMemory>
    requires some { asked.now.words.now ≢ [] }
    ensures found { IfOk result (λ docs. docs ≡ numbers_with asked.now.starts field asked.now.words.now segment.now) }
    ensures one_word { (word : List ℕ) → asked.now.starts ≡ false → asked.now.words.now ≡ word ∷ [] → IfOk result (λ _. WalkSteps segment.now word field steps.old steps.new) }
    ensures rising { IfOk result IsRising }
    ensures steps { steps.old ≤ steps.new }
{
    if asked.starts {
        let start = Start::new(alloc, segment, field, asked.words, steps)?;
        return collect(alloc, start, steps);
    }
    match only_word(asked.words) {
        Some(word) => with_word(alloc, segment, field, word, steps),
        None => {
            let phrase = Phrase::new(alloc, segment, field, asked.words, steps)?;
            collect(alloc, phrase, steps)
        }
    }
}

/// The documents that have the words in a list of any field.
fn in_any_field<L: Ledger>(
    alloc: Global,
    segment: &Segment,
    asked: &AskedWords<'_>,
    steps: &mut Steps<L>,
) -> Result<Many<u32>, NoMemory>
    requires some { asked.now.words.now ≢ [] }
    ensures found { IfOk result (λ docs. docs ≡ numbers_having None asked.now.starts asked.now.words.now segment.now) }
    ensures steps { steps.old ≤ steps.new }
{
    set_laws();
    segment.documents_rise();
    let from = in_field(alloc, segment, Field::From, asked, steps)?;
    let to = in_field(alloc, segment, Field::To, asked, steps)?;
    let subject = in_field(alloc, segment, Field::Subject, asked, steps)?;
    let body = in_field(alloc, segment, Field::Body, asked, steps)?;
    let attachment = in_field(alloc, segment, Field::Attachment, asked, steps)?;
    let people = Either::new(Rising::new(from), Rising::new(to));
    let heads = Either::new(people, Rising::new(subject));
    let texts = Either::new(heads, Rising::new(body));
    collect(alloc, Either::new(texts, Rising::new(attachment)), steps)
}
