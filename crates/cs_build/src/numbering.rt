//! The numbers of the objects of a text, which are their places in the order of the image.

ghost use Rattle.std.specs.Prelude.{◌≡◌, ◌∷◌, [], ◌+◌, ◌<◌, ◌^◌, ℕ, List, Option, Some, None, if◌then◌else◌};
ghost use Rattle.std.specs.Prelude.{true, length, map, count_by, option_map, OnOk, IfOk, IfSome, position, unwrap_or};
ghost use Rattle.std.specs.Option.{option_or};
ghost use Rattle.std.specs.List.{before_first, list_all};
ghost use Rattle.std.specs.Str.{bytes_eq};
ghost use Rattle.cs_model.specs.BuilderText.{Form as FormOf};
ghost use Rattle.cs_model.specs.BuilderFault.{is_named, is_end_line as is_end_of, is_literal as is_literal_of};
ghost use Rattle.cs_model.specs.Builder.{is_process_named, is_method_of, all_forms, birth_where, process_birth};
ghost use Rattle.cs_model.specs.Builder.{named_birth, method_birth, dictionary_birth, values_birth, class_place};
ghost use Rattle.cs_model.specs.Builder.{class_index, class_format};
ghost use Rattle.cs_model.specs.Builder.{symbol_ref, mention_ref};
ghost use Rattle.cs_build.specs.Laid.{reference_by};
ghost use Rattle.cs_build.specs.Meaning.{form_by, mention_by};
ghost use Rattle.cs_build.specs.Numbered.{name_number, method_entry, method_begun, method_found};
ghost use Rattle.cs_build.specs.Sound.{is_sound};
ghost use Rattle.cs_build.specs.Made.{IsMethodMade};
ghost use Rattle.cs_build.specs.Standing.{NumbersStand, forms_in, own_forms, symbol_names};
ghost use Rattle.cs_build.specs.Counted.{Counts, AreCounted, own_number, body_in};

use crate::classes::{Classes, classes_of, note};
use crate::form::{Form, Mention, MethodLine};
use crate::making::{NIL, index_at, natural, object_or_nil};
use crate::method::{body_of, count_literals, object_count};
use crate::object::Reference;
use crate::symbols::symbols_of;
use indexmap::{IndexMap, IndexSet};
use std::alloc::{AllocError, Global};

/// The number of the first class: behind nil, false, true, the special objects, the special selectors and the scheduler
/// with its lists.
const FIRST_CLASS: u32 = 16;

/// A method of the text and its number.
#[derive(Clone, Copy)]
pub(crate) struct Numbered<'f, 'a> {
    /// The number of its object.
    pub(crate) number: u32,
    /// Its first line.
    pub(crate) line: MethodLine<'a>,
    /// The lines behind that, up to its end.
    pub(crate) body: &'f [Form<'a>],
    /// How many of these are literals.
    pub(crate) literals: usize,
}

/// The numbers of what the lines of a text make.
#[derive(Drop)]
pub(crate) struct Births<'f, 'a> {
    /// Those of classes, objects, bytes and the contexts of processes, by name.
    things: IndexMap<&'a [u8], u32>,
    /// Those of the contexts of processes, by name.
    contexts: IndexMap<&'a [u8], u32>,
    /// The methods, by class and selector.
    methods: IndexMap<(&'a [u8], &'a [u8]), Numbered<'f, 'a>>,
    /// The next number.
    next: u32,
}

/// Gives the name of a line a number, if it has one that is new.
#[tactic(auto, using(crate::proofs::Numbers::noted_named))]
fn note_thing<'a>(
    things: &mut IndexMap<&'a [u8], u32>,
    form: &Form<'a>,
    number: u32,
) -> Result<(), AllocError>
    ensures { OnOk result ((q : List ℕ) → name_number things.new q
        ≡ option_or (name_number things.old q) (if is_named q (form_by form.now) then Some number else None)) }
{
    match form {
        Form::Class(line) => note(things, line.name, number),
        Form::Object { name, .. } => note(things, *name, number),
        Form::Bytes { name, .. } => note(things, *name, number),
        Form::Process(line) => note(things, line.name, number),
        _ => Ok(()),
    }
}

/// Gives the name of a process a number, if it is new.
fn note_context<'a>(
    contexts: &mut IndexMap<&'a [u8], u32>,
    form: &Form<'a>,
    number: u32,
) -> Result<(), AllocError>
    ensures { OnOk result ((q : List ℕ) → name_number contexts.new q
        ≡ option_or (name_number contexts.old q)
        (if is_process_named q (form_by form.now) then Some number else None)) }
{
    match form {
        Form::Process(line) => note(contexts, line.name, number),
        _ => Ok(()),
    }
}

/// Gives a method a number, where there is none of its class and selector. The other lines stand behind its first.
fn note_method<'f, 'a>(
    methods: &mut IndexMap<(&'a [u8], &'a [u8]), Numbered<'f, 'a>>,
    form: &Form<'a>,
    behind: &'f [Form<'a>],
    number: u32,
) -> Result<(), AllocError>
    ensures numbers { OnOk result ((c s : List ℕ) → option_map own_number (method_entry methods.new c s)
        ≡ option_or (option_map own_number (method_entry methods.old c s))
        (if is_method_of c s (form_by form.now) then Some number else None)) }
    ensures bodies { OnOk result ((c s : List ℕ) → option_map body_in (method_entry methods.new c s)
        ≡ option_or (option_map body_in (method_entry methods.old c s))
        (method_begun c s (form_by form.now) (map form_by behind.now))) }
    ensures counted { OnOk result (AreCounted methods.old → AreCounted methods.new) }
{
    let Form::Method(line) = form else {
        return Ok(());
    };
    let key = (line.class, line.selector);
    if !methods.contains_key(&key) {
        let method = number_method(line, behind, number);
        methods.insert(key, method)?;
    }
    Ok(())
}

/// A method with its lines, which stand behind its first.
fn number_method<'f, 'a>(
    line: &MethodLine<'a>,
    behind: &'f [Form<'a>],
    number: u32,
) -> Numbered<'f, 'a>
    ensures number { result.number ≡ number }
    ensures line { result.line ≡ line.now }
    ensures body { map form_by result.body.now ≡ before_first is_end_of (map form_by behind.now) }
    ensures literals { result.literals ≡ count_by (λ form. is_literal_of (form_by form)) result.body.now }
{
    let body = body_of(behind);
    Numbered {
        number,
        line: *line,
        body,
        literals: count_literals(body),
    }
}

impl<'f, 'a> Births<'f, 'a> {
    /// No numbers yet.
    fn new(alloc: Global) -> Births<'f, 'a>
        ensures { (forms : List FormOf) → Counts result forms forms }
    {
        Births {
            things: IndexMap::new(alloc),
            contexts: IndexMap::new(alloc),
            methods: IndexMap::new(alloc),
            next: FIRST_CLASS,
        }
    }

    /// Gives what a line makes its number. The other lines stand behind it.
    fn note_form(&mut self, form: &Form<'a>, behind: &'f [Form<'a>]) -> Result<(), AllocError>
        requires { self.old.next + 2 < 2 ^ 32 }
        ensures { OnOk result ((forms : List FormOf) →
            Counts self.old forms (form_by form.now ∷ map form_by behind.now)
            → Counts self.new forms (map form_by behind.now)) }
    {
        note_thing(&mut self.things, form, self.next)?;
        note_context(&mut self.contexts, form, self.next)?;
        note_method(&mut self.methods, form, behind, self.next)?;
        self.next += object_count(form);
        Ok(())
    }
}

/// The numbers of what the lines of a text make.
fn births_of<'f, 'a>(alloc: Global, forms: &'f [Form<'a>]) -> Result<Births<'f, 'a>, AllocError>
    requires { length forms.now < 2 ^ 28 }
    ensures { IfOk result (λ births. Counts births (map form_by forms.now) []) }
{
    let mut births = Births::new(alloc);
    for i in 0..forms.len() {
        births.note_form(&forms[i], &forms[i + 1..])?;
    }
    Ok(births)
}

/// The numbers of all objects of a text.
#[derive(Drop)]
pub(crate) struct Numbering<'f, 'a> {
    /// The lines of the text, with those of the known classes in front.
    pub(crate) forms: &'f [Form<'a>],
    /// The classes.
    pub(crate) classes: Classes<'a>,
    /// The symbols, in the order of their objects.
    pub(crate) symbols: IndexSet<&'a [u8]>,
    /// What the lines make.
    births: Births<'f, 'a>,
}

/// The most symbols that have numbers.
const MOST_SYMBOLS: usize = 1 << 28;

/// The numbers of all objects of a text, whose lines have those of the known classes in front.
pub(crate) fn numbering_of<'f, 'a>(
    alloc: Global,
    forms: &'f [Form<'a>],
) -> Result<Numbering<'f, 'a>, AllocError>
    requires few { length forms.now < 2 ^ 26 }
    requires whole { map form_by forms.now ≡ all_forms (own_forms (map form_by forms.now)) }
    requires sound { list_all is_sound (map form_by forms.now) ≡ true }
    ensures stands { IfOk result NumbersStand }
    ensures forms { IfOk result (λ n. n.forms.now ≡ forms.now) }
{
    let classes = classes_of(alloc, forms)?;
    let symbols = symbols_of(alloc, forms)?;
    let births = births_of(alloc, forms)?;
    if symbols.len() >= MOST_SYMBOLS {
        return Err(AllocError);
    }
    Ok(Numbering {
        forms,
        classes,
        symbols,
        births,
    })
}

impl<'f, 'a> Numbering<'f, 'a> {
    /// The dictionary of the class at a place. Its array of values is the next object.
    pub(crate) fn dictionary(&self, place: u32) -> u32
        requires stands { NumbersStand self.now }
        requires few { place < 2 ^ 29 }
        ensures { result ≡ dictionary_birth (forms_in self.now) place }
    {
        self.births.next + 2 * place
    }

    /// The place of a symbol among the symbols, and 0 where it is none of them.
    fn symbol_place(&self, name: &[u8]) -> usize
        requires { NumbersStand self.now }
        ensures value { result ≡ unwrap_or (position (bytes_eq name.now) (symbol_names (forms_in self.now))) 0 }
        ensures few { result < 2 ^ 28 }
    {
        match self.symbols.get_index_of(name) {
            Some(place) => place,
            None => 0,
        }
    }

    /// The symbol of a name.
    pub(crate) fn symbol(&self, name: &[u8]) -> Reference
        requires { NumbersStand self.now }
        ensures { reference_by result ≡ symbol_ref (forms_in self.now) name.now }
    {
        let first = self.dictionary(self.classes.lines.len() as u32);
        Reference::Object(first + self.symbol_place(name) as u32)
    }

    /// The number of the context of a process.
    pub(crate) fn context(&self, name: &[u8]) -> Option<u32>
        requires { NumbersStand self.now }
        ensures value { result ≡ birth_where (forms_in self.now) (is_process_named name.now) }
        ensures few { IfSome result (λ number. number < 2 ^ 28) }
    {
        self.births.contexts.get(name).copied()
    }

    /// The number of a process, which stands behind its context.
    pub(crate) fn process(&self, name: &[u8]) -> Option<u32>
        requires { NumbersStand self.now }
        ensures { result ≡ process_birth (forms_in self.now) name.now }
    {
        match self.context(name) {
            Some(context) => Some(context + 1),
            None => None,
        }
    }

    /// The number of a class, an object or a process.
    pub(crate) fn named(&self, name: &[u8]) -> Option<u32>
        requires { NumbersStand self.now }
        ensures { result ≡ named_birth (forms_in self.now) name.now }
    {
        match self.process(name) {
            Some(number) => Some(number),
            None => self.births.things.get(name).copied(),
        }
    }

    /// The place of a class.
    fn class_place(&self, class: &[u8]) -> Option<u32>
        requires { NumbersStand self.now }
        ensures value { result ≡ class_place (forms_in self.now) class.now }
        ensures few { IfSome result (λ place. place < 2 ^ 28) }
    {
        self.classes.place(class)
    }

    /// The method of a class and a selector.
    pub(crate) fn method(&self, class: &[u8], selector: &[u8]) -> Option<Numbered<'f, 'a>>
        requires { NumbersStand self.now }
        ensures number { option_map own_number result ≡ method_birth (forms_in self.now) class.now selector.now }
        ensures body { option_map body_in result ≡ method_found class.now selector.now (forms_in self.now) }
        ensures made { IfSome result IsMethodMade }
    {
        self.births.methods.get(&(class, selector)).copied()
    }

    /// The number of the method of a class and a selector.
    pub(crate) fn method_number(&self, class: &[u8], selector: &[u8]) -> Option<u32>
        requires { NumbersStand self.now }
        ensures { result ≡ method_birth (forms_in self.now) class.now selector.now }
    {
        match self.method(class, selector) {
            Some(method) => Some(method.number),
            None => None,
        }
    }

    /// The index of a class in the class table, or 0 where there is none.
    pub(crate) fn class_index(&self, name: &[u8]) -> u32
        requires { NumbersStand self.now }
        ensures { result ≡ class_index (forms_in self.now) name.now }
    {
        self.classes.index(name)
    }

    /// The format of the instances of a class, or 0 where there is none.
    pub(crate) fn class_format(&self, name: &[u8]) -> u32
        requires { NumbersStand self.now }
        ensures value { result ≡ class_format (forms_in self.now) name.now }
        ensures few { result < 32 }
    {
        self.classes.format(name)
    }

    /// The number of the dictionary of a class.
    pub(crate) fn dictionary_of(&self, class: &[u8]) -> Option<u32>
        requires { NumbersStand self.now }
        ensures { result
            ≡ option_map (dictionary_birth (forms_in self.now)) (class_place (forms_in self.now) class.now) }
    {
        match self.class_place(class) {
            Some(place) => Some(self.dictionary(place)),
            None => None,
        }
    }

    /// The number of the array of the methods of a class.
    fn values_of(&self, class: &[u8]) -> Option<u32>
        requires { NumbersStand self.now }
        ensures { result ≡ option_map (values_birth (forms_in self.now)) (class_place (forms_in self.now) class.now) }
    {
        match self.class_place(class) {
            Some(place) => Some(self.dictionary(place) + 1),
            None => None,
        }
    }

    /// What a reference stands for.
    pub(crate) fn reference(&self, value: &Mention<'_>) -> Reference
        requires { NumbersStand self.now }
        ensures { reference_by result ≡ mention_ref (forms_in self.now) (mention_by value.now) }
    {
        match *value {
            Mention::Number(value) => Reference::Small(value),
            Mention::Code(code) => Reference::Character(natural(code)),
            Mention::Nil => NIL,
            Mention::False => Reference::Object(1),
            Mention::True => Reference::Object(2),
            Mention::Symbol(name) => self.symbol(name),
            Mention::Named(name) => object_or_nil(self.named(name)),
            Mention::Dictionary(class) => object_or_nil(self.dictionary_of(class)),
            Mention::Values(class) => object_or_nil(self.values_of(class)),
            Mention::MethodOf { class, selector } => {
                object_or_nil(self.method_number(class, selector))
            }
        }
    }
}
