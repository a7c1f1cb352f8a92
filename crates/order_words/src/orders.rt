//! The orders that words give: the commands, their options and what they name.
ghost use Rattle.std.specs.Prelude.{◌≡◌, ◌∷◌, IfSome, MatchOption, Some, None, option_map};
ghost use Rattle.std.specs.Option.{option_and_then, option_copied};
ghost use Rattle.order_words.specs.Orders.{adduct_by, document_names_in, document_options, has_own_document, list};
ghost use Rattle.order_words.specs.Orders.{list_options, list_order_of, order_of, solve, solve_order_of, text_names_of};
ghost use Rattle.order_words.specs.Words.{formed_options, options_of, texts_of};
ghost use Rattle.order_words.specs.NamesOf.{document_names_of, names_of, order_read};
ghost use Rattle.order_words.specs.inside.Words.{known_in};

use crate::words::{KnownOption, Need, is_of_form, value_of};
use adducts::{Adduct, by_name};

/// What a list is asked for: the name of its text, that of its profile where it has one, and the adduct of its ions.
#[derive(Clone, Copy)]
pub struct ListNames<'a> {
    pub spectra: &'a str,
    pub profile: Option<&'a str>,
    pub adduct: Adduct,
}

/// What a solving or a check is asked for: the name of its document beside these.
#[derive(Clone, Copy)]
pub struct DocumentNames<'a> {
    pub spectra: &'a str,
    pub document: &'a str,
    pub profile: Option<&'a str>,
    pub adduct: Adduct,
}

/// What words ask for.
#[derive(Clone, Copy)]
pub enum Order<'a> {
    List(ListNames<'a>),
    Solve(DocumentNames<'a>),
    Check(DocumentNames<'a>),
}

/// The options of a list.
const LIST_OPTIONS: [KnownOption; 3] = [
    KnownOption {
        name: "--in",
        need: Need::Required,
    },
    KnownOption {
        name: "--profile",
        need: Need::Optional,
    },
    KnownOption {
        name: "--adduct",
        need: Need::Optional,
    },
];

/// The options of a solving, and of a check.
const DOCUMENT_OPTIONS: [KnownOption; 4] = [
    KnownOption {
        name: "--cert",
        need: Need::Required,
    },
    KnownOption {
        name: "--in",
        need: Need::Required,
    },
    KnownOption {
        name: "--profile",
        need: Need::Optional,
    },
    KnownOption {
        name: "--adduct",
        need: Need::Optional,
    },
];

/// What the words ask for. `None` exactly where they are no order.
pub fn read_order(words: &[String]) -> Option<Order<'_>>
    ensures { MatchOption result (order_of (texts_of words.now) ≡ None)
        (λ order. order_of (texts_of words.now) ≡ Some (order_read order)) }
{
    match words {
        [command, later @ ..] => command_order(command.as_str(), later),
        _ => None,
    }
}

/// What a command with these words behind it asks for.
fn command_order<'a>(command: &str, words: &'a [String]) -> Option<Order<'a>>
    ensures { MatchOption result (order_of (command.now ∷ texts_of words.now) ≡ None)
        (λ order. order_of (command.now ∷ texts_of words.now) ≡ Some (order_read order)) }
{
    if command == "list" {
        match list_names(words) {
            Some(names) => Some(Order::List(names)),
            None => None,
        }
    } else if command == "solve" {
        match solve_names(words) {
            Some(names) => Some(Order::Solve(names)),
            None => None,
        }
    } else if command == "check" {
        match document_names(words) {
            Some(names) => Some(Order::Check(names)),
            None => None,
        }
    } else {
        None
    }
}

/// What a list with these options is asked for. `None` where the words have another form, or name no adduct of the
/// table.
fn list_names(words: &[String]) -> Option<ListNames<'_>>
    ensures { MatchOption result
        (option_and_then list_order_of (formed_options list_options (texts_of words.now)) ≡ None)
        (λ names. option_and_then list_order_of (formed_options list_options (texts_of words.now))
        ≡ Some (list (names_of names))) }
{
    let table = LIST_OPTIONS;
    if !is_of_form(&table, words) {
        return None;
    }
    text_names(&table, words)
}

/// What a solving with these options is asked for. `None` where the words have another form, name no adduct of the
/// table, or name the document as the text or the profile.
fn solve_names(words: &[String]) -> Option<DocumentNames<'_>>
    ensures { MatchOption result
        (option_and_then solve_order_of (formed_options document_options (texts_of words.now)) ≡ None)
        (λ names. option_and_then solve_order_of (formed_options document_options (texts_of words.now))
        ≡ Some (solve (document_names_of names))) }
{
    let Some(names) = document_names(words) else {
        return None;
    };
    if is_own_document(&names) {
        Some(names)
    } else {
        None
    }
}

/// What a command on a text and a document is asked for with these options. `None` where the words have another form,
/// or name no adduct of the table.
fn document_names(words: &[String]) -> Option<DocumentNames<'_>>
    ensures { option_and_then document_names_in (formed_options document_options (texts_of words.now))
        ≡ option_map document_names_of result }
{
    let table = DOCUMENT_OPTIONS;
    if !is_of_form(&table, words) {
        return None;
    }
    let Some(given) = text_names(&table, words) else {
        return None;
    };
    let Some(document) = value_of(&table, words, "--cert") else {
        return None;
    };
    Some(DocumentNames {
        spectra: given.spectra,
        document,
        profile: given.profile,
        adduct: given.adduct,
    })
}

/// Whether a document is named neither as the text nor as the profile.
fn is_own_document(names: &DocumentNames) -> bool
    ensures { result ≡ has_own_document (document_names_of names.now) }
{
    let apart = match names.profile {
        Some(profile) => names.document != profile,
        None => true,
    };
    names.document != names.spectra && apart
}

/// What words name that each command on a text has. `None` where they name no text, or no adduct of the table.
fn text_names<'a>(table: &[KnownOption], words: &'a [String]) -> Option<ListNames<'a>>
    ensures { IfSome (options_of (known_in table.now) (texts_of words.now)) (λ options.
        option_map names_of result ≡ text_names_of options) }
{
    let Some(spectra) = value_of(table, words, "--in") else {
        return None;
    };
    let profile = value_of(table, words, "--profile");
    match named_adduct(value_of(table, words, "--adduct")) {
        Some(adduct) => Some(ListNames {
            spectra,
            profile,
            adduct,
        }),
        None => None,
    }
}

/// The adduct of a name, or where none is given that of the protonated molecule.
fn named_adduct(given: Option<&str>) -> Option<Adduct>
    ensures { result ≡ adduct_by (option_copied given.entry) }
{
    match given {
        Some(name) => by_name(name),
        None => by_name("[M+H]+"),
    }
}
