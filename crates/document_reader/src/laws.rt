//! Laws of the reading of documents, which a check of this crate proves.
ghost use Rattle.std.specs.Prelude.{◌≡◌, ◌≢◌, ◌≤◌, ◌+◌, ◌-◌, ◌∷◌, ◌⊎◌, [], ℕ, List, Some, None, Result, Ok, Err};
ghost use Rattle.std.specs.Prelude.{length};
ghost use Rattle.tree_document.specs.Document.{IsGood, spelling_of};
ghost use Rattle.tree_document.specs.Reading.{IsAnswer, IsBadLine, IsPastEnd, IsReading, IsTooBig, IsTooDeep};
ghost use Rattle.tree_document.specs.Reading.{IsTruncated};
ghost use Rattle.tree_document.specs.declared.document.Document.{Document};
ghost use Rattle.tree_document.specs.declared.fault.CertFault.{CertFault};
ghost use Rattle.tree_document.specs.declared.fault.DocumentError.{DocumentError};
ghost use Rattle.tree_document.specs.declared.fault.DocumentError.TheVariants.{OutOfMemory};
ghost use Rattle.line_fields.specs.Need.{need_document};
ghost use Rattle.line_reader.specs.Verdict.{at_bad, at_big, at_deep, at_end, verdict};

use element_table::a_spelling_is_one_word;
use line_fields::a_line_is_read_as_it_is_spelled;

/// Where the lines of a text stop, it is refused as documents say.
pub(crate) fn lines_stop_as_documents_say()
    ensures bad { (texts bad : List (List ℕ)) (line : ℕ) → verdict (need_document ∷ []) texts ≡ Some (at_bad bad)
        → line ≡ (length texts + 1) - length bad → IsBadLine texts line }
    ensures big { (texts bad : List (List ℕ)) (line : ℕ) → verdict (need_document ∷ []) texts ≡ Some (at_big bad)
        → line ≡ (length texts + 1) - length bad → IsTooBig texts line }
    ensures deep { (texts bad : List (List ℕ)) (line : ℕ) → verdict (need_document ∷ []) texts ≡ Some (at_deep bad)
        → line ≡ (length texts + 1) - length bad → IsTooDeep texts line }
    ensures bad_within { (texts bad : List (List ℕ)) → verdict (need_document ∷ []) texts ≡ Some (at_bad bad)
        → length bad ≤ length texts }
    ensures big_within { (texts bad : List (List ℕ)) → verdict (need_document ∷ []) texts ≡ Some (at_big bad)
        → length bad ≤ length texts }
    ensures deep_within { (texts bad : List (List ℕ)) → verdict (need_document ∷ []) texts ≡ Some (at_deep bad)
        → length bad ≤ length texts }
    ensures short { (texts : List (List ℕ)) → verdict (need_document ∷ []) texts ≡ Some at_end → IsTruncated texts }
    ensures past_end { (texts : List (List ℕ)) (unfinished : List ℕ) (line : ℕ)
        → verdict (need_document ∷ []) texts ≡ None → unfinished ≢ [] → line ≡ length texts + 1
        → IsPastEnd texts unfinished line }
{
    a_line_is_read_as_it_is_spelled();
    a_spelling_is_one_word();
}

/// Bytes read in one way: as one document or as one refusal. So the spelling of a document is read as it and as nothing
/// else, want of memory aside.
pub fn bytes_read_one_way()
    ensures some { (bytes : List ℕ) → (result : Result Document CertFault) × IsReading bytes result }
    ensures one { (bytes : List ℕ) (one other : Result Document CertFault)
        → IsReading bytes one → IsReading bytes other → one ≡ other }
    ensures spelling { (document : Document) → IsGood document → IsReading (spelling_of document) (Ok document) }
    ensures again { (document : Document) (answer : Result Document DocumentError)
        → IsGood document → IsAnswer (spelling_of document) answer
        → (answer ≡ Ok document) ⊎ (answer ≡ Err OutOfMemory) }
{
    a_line_is_read_as_it_is_spelled();
    a_spelling_is_one_word();
}
