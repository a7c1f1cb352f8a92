//! Laws of the writing of documents, which a check of this crate proves.
ghost use Rattle.std.specs.Prelude.{◌≡◌, ◌∷◌, ◌++◌, []};
ghost use Rattle.std.specs.List.{flat_map};
ghost use Rattle.tree_document.specs.Line.{header_line};
ghost use Rattle.tree_document.specs.Document.{ending_line, section_lines, spelling_of, text_of};
ghost use Rattle.tree_document.specs.declared.document.Document.{Document};

/// The header, the sections and the ending of a document, joined, are its spelling.
pub fn parts_make_the_spelling()
    ensures { (document : Document) → spelling_of document ≡ text_of (header_line ∷ [])
        ++ (flat_map (λ section. text_of (section_lines section)) document.sections
        ++ text_of (ending_line document.ending ∷ [])) }
{}
