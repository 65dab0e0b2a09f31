//! The symbols of a text, each once, in the order in which they are first mentioned.

ghost use Rattle.std.specs.Prelude.{◌≡◌, [], map, flat_map, IfOk, OnOk};
ghost use Rattle.cs_model.specs.Builder.{symbols_in, symbol_in, with_new};
ghost use Rattle.cs_build.specs.Meaning.{form_by, mention_by};
ghost use Rattle.cs_build.specs.Numbered.{plain_names, mentioned, selector_words, selector_arguments};
ghost use Rattle.cs_build.specs.Numbered.{special_names_of, special_places};

use crate::form::{Form, Mention};
use indexmap::IndexSet;
use std::alloc::{AllocError, Global};

/// The special selectors, each with its number of arguments.
#[tactic(auto, unfolding(crate::specs::Numbered::selector_words, crate::specs::Numbered::selector_arguments))]
pub(crate) fn selectors() -> [(&'static str, i32); 32]
    ensures names { map (λ e. e.0.now) result ≡ selector_words }
    ensures arguments { map (λ e. e.1) result ≡ selector_arguments }
{
    [
        ("+", 1),
        ("-", 1),
        ("<", 1),
        (">", 1),
        ("<=", 1),
        (">=", 1),
        ("=", 1),
        ("~=", 1),
        ("*", 1),
        ("/", 1),
        ("\\\\", 1),
        ("@", 1),
        ("bitShift:", 1),
        ("//", 1),
        ("bitAnd:", 1),
        ("bitOr:", 1),
        ("at:", 1),
        ("at:put:", 2),
        ("size", 0),
        ("next", 0),
        ("nextPut:", 1),
        ("atEnd", 0),
        ("==", 1),
        ("class", 0),
        ("blockCopy:", 1),
        ("value", 0),
        ("value:", 1),
        ("do:", 1),
        ("new", 0),
        ("new:", 1),
        ("x", 0),
        ("y", 0),
    ]
}

/// The special objects that are symbols, by their places.
#[tactic(auto, unfolding(crate::specs::Numbered::special_names_of, crate::specs::Numbered::special_places))]
pub(crate) fn special_names() -> [(usize, &'static str); 5]
    ensures names { map (λ e. e.1.now) result ≡ special_names_of }
    ensures places { map (λ e. e.0) result ≡ special_places }
{
    [
        (20, "doesNotUnderstand:"),
        (21, "cannotReturn:"),
        (25, "mustBeBoolean"),
        (48, "aboutToReturn:through:"),
        (50, "attemptToAssign:withIndex:"),
    ]
}

/// The symbols of the lines of a text, those of the known classes included.
pub(crate) fn symbols_of<'a>(
    alloc: Global,
    forms: &[Form<'a>],
) -> Result<IndexSet<&'a [u8]>, AllocError>
    ensures { IfOk result (λ symbols. plain_names symbols.keys ≡ mentioned
        (mentioned (mentioned [] selector_words) special_names_of) (flat_map symbols_in (map form_by forms.now))) }
{
    let mut symbols = IndexSet::new(alloc);
    mention_selectors(&mut symbols)?;
    mention_specials(&mut symbols)?;
    for form in forms {
        mention_form(&mut symbols, form)?;
    }
    Ok(symbols)
}

/// A symbol is mentioned.
pub(crate) fn mention_symbol<'a>(
    symbols: &mut IndexSet<&'a [u8]>,
    name: &'a [u8],
) -> Result<(), AllocError>
    ensures { OnOk result (plain_names symbols.new.keys ≡ with_new (plain_names symbols.old.keys) name.now) }
{
    symbols.insert(name)?;
    Ok(())
}

/// The special selectors are mentioned.
fn mention_selectors(symbols: &mut IndexSet<&[u8]>) -> Result<(), AllocError>
    ensures { OnOk result (plain_names symbols.new.keys ≡ mentioned (plain_names symbols.old.keys) selector_words) }
{
    for selector in &selectors() {
        mention_symbol(symbols, selector.0.as_bytes())?;
    }
    Ok(())
}

/// The symbols among the special objects are mentioned.
fn mention_specials(symbols: &mut IndexSet<&[u8]>) -> Result<(), AllocError>
    ensures { OnOk result (plain_names symbols.new.keys ≡ mentioned (plain_names symbols.old.keys) special_names_of) }
{
    for special in &special_names() {
        mention_symbol(symbols, special.1.as_bytes())?;
    }
    Ok(())
}

/// The symbols of a reference are mentioned: one, if it is a symbol.
#[tactic(auto, unfolding(crate::specs::Numbered::mentioned))]
fn mention_in<'a>(symbols: &mut IndexSet<&'a [u8]>, value: &Mention<'a>) -> Result<(), AllocError>
    ensures { OnOk result (plain_names symbols.new.keys ≡ mentioned (plain_names symbols.old.keys)
        (symbol_in (mention_by value.now))) }
{
    match *value {
        Mention::Symbol(name) => mention_symbol(symbols, name),
        _ => Ok(()),
    }
}

/// The symbols of references are mentioned.
fn mention_all<'a>(
    symbols: &mut IndexSet<&'a [u8]>,
    values: &[Mention<'a>],
) -> Result<(), AllocError>
    ensures { OnOk result (plain_names symbols.new.keys ≡ mentioned (plain_names symbols.old.keys)
        (flat_map symbol_in (map mention_by values.now))) }
{
    for value in values {
        mention_in(symbols, value)?;
    }
    Ok(())
}

/// The symbols of a line are mentioned.
#[tactic(auto, unfolding(crate::specs::Numbered::mentioned))]
fn mention_form<'a>(symbols: &mut IndexSet<&'a [u8]>, form: &Form<'a>) -> Result<(), AllocError>
    ensures { OnOk result (plain_names symbols.new.keys ≡ mentioned (plain_names symbols.old.keys)
        (symbols_in (form_by form.now))) }
{
    match form {
        Form::Class(line) => mention_symbol(symbols, line.name),
        Form::Method(line) => mention_symbol(symbols, line.selector),
        Form::Object { slots, .. } => mention_all(symbols, slots),
        Form::Process(line) => mention_in(symbols, &line.receiver),
        Form::Special { value, .. } | Form::Literal(value) => mention_in(symbols, value),
        _ => Ok(()),
    }
}
