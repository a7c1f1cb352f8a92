//! The form of words: the options that they give to a command.
ghost use Rattle.std.specs.Prelude.{◌≡◌, ◌≤◌, ◌∷◌, ◌++◌, ℕ, List, [], IfSome, MatchOption, Option, Some, None, length};
ghost use Rattle.std.specs.Prelude.{true, false, option_map};
ghost use Rattle.std.specs.Option.{option_copied};
ghost use Rattle.std.specs.List.{list_all, list_any};
ghost use Rattle.std.specs.Str.{bytes_eq};
ghost use Rattle.order_words.specs.Words.{Given, begins_with_dash, has_equals_sign, is_flag, is_flag_need, is_in_table};
ghost use Rattle.order_words.specs.Words.{joined, meets, options_of, texts_of, value_in, values_of};
ghost use Rattle.order_words.specs.inside.Words.{IsFound, given_of, is_of_form, need_of, known_in, value_under};

/// How an option stands in a command.
#[derive(Clone, Copy)]
pub enum Need {
    /// Once, with a value.
    Required,
    /// At most once, with a value.
    Optional,
    /// At most once, without a value.
    Flag,
}

/// An option of a command.
#[derive(Clone, Copy)]
pub struct KnownOption {
    pub name: &'static str,
    pub need: Need,
}

/// What words give for an option.
#[derive(Clone, Copy)]
pub enum Found<'a> {
    /// It is not given.
    Nothing,
    /// It is given without a value.
    Bare,
    /// It is given with this value.
    Value(&'a str),
    /// It is given more than once, first so.
    Twice(Option<&'a str>),
}

/// An option at the front of words, and the words behind it.
#[derive(Clone, Copy)]
struct NextOption<'a> {
    name: &'a str,
    value: Option<&'a str>,
    behind: &'a [String],
}

impl Need {
    /// Whether the option stands without a value.
    fn is_flag(self) -> bool
        ensures { result ≡ is_flag_need (need_of self) }
    {
        match self {
            Need::Required | Need::Optional => false,
            Need::Flag => true,
        }
    }

    /// Whether what is found of an option is what the command needs.
    fn is_met(self, found: Found) -> bool
        ensures { (values : List (Option (List ℕ))) → IsFound found.entry values
            → result ≡ meets (need_of self) values }
    {
        match (self, found) {
            (Need::Required, Found::Value(_)) => true,
            (Need::Optional, Found::Nothing | Found::Value(_)) => true,
            (Need::Flag, Found::Nothing | Found::Bare) => true,
            _ => false,
        }
    }
}

impl<'a> Found<'a> {
    /// What is found of an option of this name behind one option more.
    fn with(self, next: &NextOption<'a>, name: &str) -> Found<'a>
        ensures { (values : List (Option (List ℕ))) → IsFound self.entry values
            → IsFound result (values ++ value_under name.now (given_of next.now)) }
    {
        if next.name == name {
            self.and(next.value)
        } else {
            self
        }
    }

    /// What is found where this is given once more.
    fn and(self, value: Option<&'a str>) -> Found<'a>
        ensures { (values : List (Option (List ℕ))) → IsFound self.entry values
            → IsFound result (values ++ option_copied value.entry ∷ []) }
    {
        match (self, value) {
            (Found::Nothing, None) => Found::Bare,
            (Found::Nothing, Some(value)) => Found::Value(value),
            (Found::Bare, _) => Found::Twice(None),
            (Found::Value(first), _) => Found::Twice(Some(first)),
            (Found::Twice(first), _) => Found::Twice(first),
        }
    }
}

/// Whether words are of the form of a command's options.
pub fn is_of_form(table: &[KnownOption], words: &[String]) -> bool
    ensures { result ≡ is_of_form (known_in table.now) (texts_of words.now) }
{
    let known = are_known(table, words);
    let met = are_met(table, words);
    known && met
}

/// Whether words give for each option of a command what it needs.
fn are_met(table: &[KnownOption], words: &[String]) -> bool
    ensures { (options : List Given) → options_of (known_in table.now) (texts_of words.now) ≡ Some options
        → result ≡ list_all (λ known. meets known.need (values_of known.name options)) (known_in table.now) }
{
    for known in table {
        if !is_need_met(table, words, known.name, known.need) {
            return false;
        }
    }
    true
}

/// Whether words give for an option what a command needs of it.
fn is_need_met(table: &[KnownOption], words: &[String], name: &str, need: Need) -> bool
    ensures { (options : List Given) → options_of (known_in table.now) (texts_of words.now) ≡ Some options
        → result ≡ meets (need_of need) (values_of name.now options) }
{
    need.is_met(find_option(table, words, name))
}

/// The value that words of the form of a command's options give for one of them.
pub fn value_of<'a>(table: &[KnownOption], words: &'a [String], name: &str) -> Option<&'a str>
    ensures { IfSome (options_of (known_in table.now) (texts_of words.now)) (λ options.
        option_copied result ≡ value_in name.now options) }
{
    match find_option(table, words, name) {
        Found::Nothing | Found::Bare => None,
        Found::Value(value) => Some(value),
        Found::Twice(first) => first,
    }
}

/// Whether words give options of a command alone.
fn are_known(table: &[KnownOption], words: &[String]) -> bool
    ensures { MatchOption (options_of (known_in table.now) (texts_of words.now)) (result ≡ false)
        (λ options. result ≡ list_all (is_in_table (known_in table.now)) options) }
{
    let mut rest = words;
    while let [word, later @ ..] = rest {
        let Some(next) = next_option(table, word.as_str(), later) else {
            return false;
        };
        if !is_name_in(table, next.name) {
            return false;
        }
        rest = next.behind;
    }
    true
}

/// What words give for an option.
fn find_option<'a>(table: &[KnownOption], words: &'a [String], name: &str) -> Found<'a>
    ensures { IfSome (options_of (known_in table.now) (texts_of words.now)) (λ options.
        IsFound result (values_of name.now options)) }
{
    let mut found = Found::Nothing;
    let mut rest = words;
    while let [word, later @ ..] = rest {
        let Some(next) = next_option(table, word.as_str(), later) else {
            return Found::Nothing;
        };
        found = found.with(&next, name);
        rest = next.behind;
    }
    found
}

/// The option that a word begins, and the words behind it. `None` where it has no value and needs one.
fn next_option<'a>(
    table: &[KnownOption],
    word: &'a str,
    later: &'a [String],
) -> Option<NextOption<'a>>
    ensures options { MatchOption result (options_of (known_in table.now) (word.now ∷ texts_of later.now) ≡ None)
        (λ next. options_of (known_in table.now) (word.now ∷ texts_of later.now)
        ≡ option_map (λ options. given_of next ∷ options)
        (options_of (known_in table.now) (texts_of next.behind.now))) }
    ensures shorter { IfSome result (λ next. length next.behind.now ≤ length later.now) }
{
    if let Some((name, value)) = split_at_sign(word) {
        return Some(NextOption {
            name,
            value: Some(value),
            behind: later,
        });
    }
    if is_flag(table, word) {
        return Some(NextOption {
            name: word,
            value: None,
            behind: later,
        });
    }
    let [next, behind @ ..] = later else {
        return None;
    };
    let value = next.as_str();
    if starts_with_dash(value) {
        None
    } else {
        Some(NextOption {
            name: word,
            value: Some(value),
            behind,
        })
    }
}

/// What stands before and behind the first equals sign of a word. `None` where it has none.
fn split_at_sign(word: &str) -> Option<(&str, &str)>
    ensures { MatchOption result (has_equals_sign word.now ≡ false)
        (λ parts. (has_equals_sign word.now ≡ true)
        × (joined word.now ≡ record { name = parts.0.now; value = Some parts.1.now })) }
{
    word.split_once('=')
}

/// Whether a word begins with a dash.
fn starts_with_dash(word: &str) -> bool
    ensures { result ≡ begins_with_dash word.now }
{
    word.starts_with('-')
}

/// Whether a name is that of one of these options.
fn is_name_in(table: &[KnownOption], name: &str) -> bool
    ensures { result ≡ list_any (λ known. bytes_eq known.name name.now) (known_in table.now) }
{
    for known in table {
        if known.name == name {
            return true;
        }
    }
    false
}

/// Whether a word is one of these options, and one without a value.
fn is_flag(table: &[KnownOption], word: &str) -> bool
    ensures { result ≡ is_flag (known_in table.now) word.now }
{
    for known in table {
        if known.name == word && known.need.is_flag() {
            return true;
        }
    }
    false
}
