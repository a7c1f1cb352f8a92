//! Laws of the definitions, which a check of this crate proves.
ghost use Rattle.std.specs.Prelude.{◌≡◌, ◌∷◌, [], None, Some, codes};
ghost use Rattle.order_words.specs.Words.{formed_options};
ghost use Rattle.order_words.specs.TriedOptions.{given_flag, given_value, tried_options};

/// The form of options, tried on words: an option without a value takes none, wherever it stands, and stands at most
/// once.
pub fn an_option_without_a_value_takes_none()
    ensures first { formed_options tried_options (codes "--json" ∷ codes "--in" ∷ codes "a" ∷ [])
        ≡ Some (given_flag ∷ given_value (codes "--in") (codes "a") ∷ []) }
    ensures last { formed_options tried_options (codes "--in" ∷ codes "a" ∷ codes "--json" ∷ [])
        ≡ Some (given_value (codes "--in") (codes "a") ∷ given_flag ∷ []) }
    ensures between { formed_options tried_options
        (codes "--in" ∷ codes "a" ∷ codes "--json" ∷ codes "--out=b" ∷ [])
        ≡ Some (given_value (codes "--in") (codes "a") ∷ given_flag ∷ given_value (codes "--out") (codes "b") ∷ []) }
    ensures alone { formed_options tried_options (codes "--json" ∷ []) ≡ None }
    ensures twice { formed_options tried_options
        (codes "--in" ∷ codes "a" ∷ codes "--json" ∷ codes "--json" ∷ []) ≡ None }
    ensures before_a_word { formed_options tried_options
        (codes "--in" ∷ codes "a" ∷ codes "--json" ∷ codes "b" ∷ []) ≡ None }
    ensures joined { formed_options tried_options (codes "--in" ∷ codes "a" ∷ codes "--json=b" ∷ []) ≡ None }
    ensures as_a_value { formed_options tried_options (codes "--in" ∷ codes "--json" ∷ []) ≡ None }
{}
