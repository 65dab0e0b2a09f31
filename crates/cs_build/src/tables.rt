//! What the lines of a text say, by name.

ghost use Rattle.std.specs.Prelude.{◌≡◌, ◌+◌, ◌++◌, ◌&&◌, ◌||◌, ◌^◌, ◌≤◌, ◌∷◌, [], ℕ, List, false, if◌then◌else◌};
ghost use Rattle.std.specs.Prelude.{length, map, nat_eq, option_map, IfOk, OnOk, Some};
ghost use Rattle.std.specs.Cmp.Lexicographic.{pointwise};
ghost use Rattle.cs_model.specs.BuilderText as text;
ghost use Rattle.cs_model.specs.BuilderFault.{is_active_line, is_twice};
ghost use Rattle.cs_model.specs.BuilderFault.{kind_of_object, known};
ghost use Rattle.cs_model.specs.BuilderFault.{known_classes as known_class_lines, open_body};
ghost use Rattle.cs_build.specs.Lines.{forms_by};
ghost use Rattle.cs_build.specs.Meaning.{class_by, form_by};
ghost use Rattle.cs_build.specs.Tabled.{AreMethods, AreNames, AreTables, IsBody, entry_named, entry_at_two};

use crate::code::byte_count;
use crate::form::{ClassLine, Form, MethodLine};
use crate::lines::{Line, is_inside};
use indexmap::IndexMap;
use std::alloc::{AllocError, Global};

/// What a name names.
#[derive(Clone, Copy, Debug)]
pub(crate) enum Named<'a> {
    /// A class.
    Class(ClassLine<'a>),
    /// A process.
    Process,
    /// An object.
    Object,
}

/// A table by name.
pub(crate) type ByName<'a, V> = IndexMap<&'a [u8], V>;

/// The methods by class and selector, each with the number of its arguments.
pub(crate) type Methods<'a> = IndexMap<(&'a [u8], &'a [u8]), i32>;

/// What the lines behind a method's first line say.
#[derive(Drop)]
pub(crate) struct Body<'a> {
    /// How many lines stand above them, that first line included.
    pub(crate) start: usize,
    /// The places of the labels, in bytes of code.
    pub(crate) labels: ByName<'a, u32>,
    /// How many bytes of code there are.
    pub(crate) place: u32,
    /// How many literals there are.
    pub(crate) literals: u32,
}

/// What the lines above a line say.
#[derive(Drop)]
pub(crate) struct Tables<'a> {
    /// The classes, objects and processes.
    pub(crate) names: ByName<'a, Named<'a>>,
    /// The methods.
    pub(crate) methods: Methods<'a>,
    /// Whether there is an active process.
    pub(crate) has_active: bool,
    /// Whether the last method has no end.
    pub(crate) is_open: bool,
    /// The lines behind the last line that begins a method, or all lines where none does.
    pub(crate) body: Body<'a>,
}

/// What stands above a text's first line.
pub(crate) fn first_tables<'a>(alloc: Global) -> Result<Tables<'a>, AllocError>
    ensures { IfOk result (λ tables. AreTables tables []) }
{
    Ok(Tables {
        names: known_names(alloc)?,
        methods: IndexMap::new(alloc),
        has_active: false,
        is_open: false,
        body: empty_body(alloc, 0),
    })
}

/// A body without lines, behind so many lines.
fn empty_body<'a>(alloc: Global, start: usize) -> Body<'a>
    ensures { (above : List text.Form) → length above ≡ start → open_body above ≡ [] → IsBody result above }
{
    Body {
        start,
        labels: IndexMap::new(alloc),
        place: 0,
        literals: 0,
    }
}

/// The names of the classes that each text has.
fn known_names<'a>(alloc: Global) -> Result<ByName<'a, Named<'a>>, AllocError>
    ensures { IfOk result (λ names. AreNames names []) }
{
    let mut names = IndexMap::new(alloc);
    let classes = known_classes();
    let mut left = classes.len();
    while left > 0 {
        left -= 1;
        let line = classes[left];
        put(&mut names, line.name, Named::Class(line))?;
    }
    Ok(names)
}

/// The classes that stand above every text.
fn known_classes() -> [ClassLine<'static>; 22]
    ensures { map class_by result ≡ known_class_lines }
{
    [
        known("Object", None, 0, 0),
        kind_of_object("Class", 1, 4),
        kind_of_object("UndefinedObject", 0, 0),
        kind_of_object("False", 0, 0),
        kind_of_object("Context", 3, 6),
        kind_of_object("BlockClosure", 3, 3),
        kind_of_object("True", 0, 0),
        kind_of_object("SmallInteger", 7, 0),
        kind_of_object("Character", 7, 0),
        kind_of_object("Array", 2, 0),
        kind_of_object("ByteString", 16, 0),
        known("Symbol", Some("ByteString"), 16, 0),
        kind_of_object("ByteArray", 16, 0),
        kind_of_object("CompiledMethod", 24, 0),
        kind_of_object("Message", 1, 3),
        kind_of_object("Process", 1, 4),
        kind_of_object("Semaphore", 1, 3),
        kind_of_object("LinkedList", 1, 2),
        kind_of_object("ProcessorScheduler", 1, 2),
        kind_of_object("Association", 1, 2),
        kind_of_object("MethodDictionary", 3, 2),
        kind_of_object("Point", 1, 2),
    ]
}

/// A class of this name.
fn known(
    name: &'static str,
    superclass: Option<&'static str>,
    format: u8,
    fields: u8,
) -> ClassLine<'static>
    ensures { class_by result ≡ known name.now (option_map (λ s. s.now) superclass.entry) format fields }
{
    ClassLine {
        name: name.as_bytes(),
        superclass: match superclass {
            Some(superclass) => Some(superclass.as_bytes()),
            None => None,
        },
        format: i32::from(format),
        fields: i32::from(fields),
    }
}

/// A class whose superclass is Object.
fn kind_of_object(name: &'static str, format: u8, fields: u8) -> ClassLine<'static>
    ensures { class_by result ≡ kind_of_object name.now format fields }
{
    known(name, Some("Object"), format, fields)
}

/// Puts a name into a table.
fn put<'a, V: Drop>(table: &mut ByName<'a, V>, name: &'a [u8], value: V) -> Result<(), AllocError>
    ensures { OnOk result ((q : List ℕ)
        → entry_named table.new q ≡ (if pointwise nat_eq name.now q then Some value else entry_named table.old q)) }
{
    match table.insert(name, value) {
        Ok(_) => Ok(()),
        Err(_) => Err(AllocError),
    }
}

// ---- one line more

/// Takes a line up behind those above it.
pub(crate) fn note<'a>(
    alloc: Global,
    tables: &mut Tables<'a>,
    above: &[Line<'a>],
    form: &Form<'a>,
) -> Result<(), AllocError>
    requires few { length above.now ≤ 262144 }
    requires tables { AreTables tables.old (forms_by above.now) }
    requires fresh { is_twice (forms_by above.now) (form_by form.now) ≡ false }
    ensures { OnOk result (AreTables tables.new (forms_by above.now ++ form_by form.now ∷ [])) }
{
    note_name(&mut tables.names, form)?;
    note_method(&mut tables.methods, form)?;
    note_body(alloc, &mut tables.body, above.len(), form)?;
    tables.has_active = has_active(tables.has_active, form);
    tables.is_open = is_inside(tables.is_open, form);
    Ok(())
}

/// Takes up the name that a line gives something.
fn note_name<'a>(names: &mut ByName<'a, Named<'a>>, form: &Form<'a>) -> Result<(), AllocError>
    ensures { OnOk result ((above : List text.Form) → AreNames names.old above
        → is_twice above (form_by form.now) ≡ false → AreNames names.new (above ++ form_by form.now ∷ [])) }
{
    match form {
        Form::Class(line) => put(names, line.name, Named::Class(*line)),
        Form::Process(line) => put(names, line.name, Named::Process),
        Form::Object { name, .. } => put(names, name, Named::Object),
        Form::Bytes { name, .. } => put(names, name, Named::Object),
        _ => Ok(()),
    }
}

/// Takes up a method.
fn note_method<'a>(methods: &mut Methods<'a>, form: &Form<'a>) -> Result<(), AllocError>
    ensures { OnOk result ((above : List text.Form) → AreMethods methods.old above
        → is_twice above (form_by form.now) ≡ false → AreMethods methods.new (above ++ form_by form.now ∷ [])) }
{
    match form {
        Form::Method(line) => put_method(methods, line),
        _ => Ok(()),
    }
}

/// Puts a method into a table.
fn put_method<'a>(methods: &mut Methods<'a>, line: &MethodLine<'a>) -> Result<(), AllocError>
    ensures { OnOk result ((c s : List ℕ) → entry_at_two methods.new c s
        ≡ (if pointwise nat_eq line.now.class.now c && pointwise nat_eq line.now.selector.now s
        then Some line.now.arguments else entry_at_two methods.old c s)) }
{
    match methods.insert((line.class, line.selector), line.arguments) {
        Ok(_) => Ok(()),
        Err(_) => Err(AllocError),
    }
}

/// Takes up a line behind so many: the first line of a method begins a body, and others belong to the one there.
fn note_body<'a>(
    alloc: Global,
    body: &mut Body<'a>,
    above: usize,
    form: &Form<'a>,
) -> Result<(), AllocError>
    requires few { (body.old.place ≤ 2 ^ 24) × (body.old.literals ≤ 2 ^ 24) }
    requires room { above ≤ 2 ^ 24 }
    ensures { OnOk result ((lines : List text.Form) → length lines ≡ above → IsBody body.old lines
        → is_twice lines (form_by form.now) ≡ false → IsBody body.new (lines ++ form_by form.now ∷ [])) }
{
    match form {
        Form::Method(_) => *body = empty_body(alloc, above + 1),
        Form::Label(name) => put(&mut body.labels, name, body.place)?,
        Form::Literal(_) => body.literals += 1,
        _ => body.place += byte_count(form),
    }
    Ok(())
}

/// Whether there is an active process with this line, which may stand above it already.
fn has_active(above: bool, form: &Form<'_>) -> bool
    ensures { result ≡ (above || is_active_line (form_by form.now)) }
{
    match form {
        Form::Active(_) => true,
        _ => above,
    }
}
