//! The objects that the lines of a text make.

ghost use Rattle.std.specs.Prelude.{◌≡◌, ◌∷◌, ◌++◌, ◌+◌, ◌^◌, ◌<◌, ◌*ℤ◌, ◌+ℤ◌, [], pos, true, length, map};
ghost use Rattle.std.specs.Prelude.{option_map, IfOk, OnOk};
ghost use Rattle.std.specs.Prelude.{ℕ, List, ◌≤◌, count_by, replicate};
ghost use Rattle.std.specs.List.{list_all};
ghost use Rattle.std.specs.Option.{option_map_or};
ghost use Rattle.cs_model.specs.Ref.{Small};
ghost use Rattle.cs_model.specs.BuilderText.{Class, Form as FormOf, Method};
ghost use Rattle.cs_model.specs.Obj.{Ctx};
ghost use Rattle.cs_model.specs.BuilderFault.{is_between, is_literal as is_literal_of, method_fits, most_temporaries};
ghost use Rattle.cs_model.specs.Builder.{class_object as class_object_of, class_ref, class_slots, nil_ref};
ghost use Rattle.cs_model.specs.Builder.{mention_ref, method_birth, obj_or_nil, pointer_object as pointer_object_of};
ghost use Rattle.cs_model.specs.Builder.{class_index, method_object as method_object_of, objects_in};
ghost use Rattle.cs_model.specs.Builder.{process_objects, raw_object as raw_object_of, process_ref, symbol_ref};
ghost use Rattle.cs_model.specs.Builder.{built_header, list_if_ready, natural as natural_in};
ghost use Rattle.cs_model.specs.Builder.{dictionary_object as dictionary_object_of, values_object as values_object_of};
ghost use Rattle.cs_build.specs.Making.{begin_at, context_made, contexts_made, method_literals, method_made};
ghost use Rattle.cs_build.specs.Making.{process_made};
ghost use Rattle.cs_build.specs.Made.{IsMethodMade};
ghost use Rattle.cs_build.specs.Readied.{AreReadied};
ghost use Rattle.cs_build.specs.Laid.{laid, laid_by, reference_by};
ghost use Rattle.cs_build.specs.Meaning.{class_by, form_by, mention_by, method_line_by, process_by};
ghost use Rattle.cs_build.specs.Sound.{is_sound};
ghost use Rattle.cs_build.specs.Standing.{NumbersStand, forms_in, has_number};

use crate::bytecodes::bytecodes_of;
use crate::form::{ClassLine, Form, Mention, MethodLine, ProcessLine};
use crate::making::{
    NIL, hashed_pointers, natural, object_or_nil, plain_format, pointers, raw_object, spare,
};
use crate::method::method_header;
use crate::numbering::{Numbered, Numbering};
use crate::object::{Object, Reference};
use crate::ready::{Ready, priority_in};
use std::alloc::{AllocError, Global};

/// The process of a name, and nil where there is none.
pub(crate) fn process_or_nil(numbering: &Numbering<'_, '_>, name: Option<&[u8]>) -> Reference
    requires { NumbersStand numbering.now }
    ensures { reference_by result ≡ process_ref (forms_in numbering.now) (option_map (λ n. n.now) name.entry) }
{
    match name {
        Some(name) => object_or_nil(numbering.process(name)),
        None => NIL,
    }
}

/// What references stand for.
fn references(
    alloc: Global,
    numbering: &Numbering<'_, '_>,
    values: &[Mention<'_>],
) -> Result<Vec<Reference>, AllocError>
    requires { NumbersStand numbering.now }
    ensures { IfOk result (λ slots. map reference_by slots.items
        ≡ map (mention_ref (forms_in numbering.now)) (map mention_by values.now)) }
{
    let mut slots = Vec::new(alloc);
    for value in values {
        slots.push(numbering.reference(value))?;
    }
    Ok(slots)
}

/// An object of slots.
pub(crate) fn pointer_object(
    alloc: Global,
    numbering: &Numbering<'_, '_>,
    class: &[u8],
    values: &[Mention<'_>],
) -> Result<Object, AllocError>
    requires { NumbersStand numbering.now }
    ensures { IfOk result (λ o. laid_by o
        ≡ laid (pointer_object_of (forms_in numbering.now) class.now (map mention_by values.now))) }
{
    let slots = references(alloc, numbering, values)?;
    let format = plain_format(numbering.class_format(class));
    pointers(alloc, numbering.class_index(class), format, &slots)
}

/// The superclass that a line says.
fn superclass(numbering: &Numbering<'_, '_>, line: &ClassLine<'_>) -> Reference
    requires { NumbersStand numbering.now }
    ensures { reference_by result
        ≡ option_map_or (class_ref (forms_in numbering.now)) (class_by line.now).super nil_ref }
{
    match line.superclass {
        Some(name) => object_or_nil(numbering.named(name)),
        None => NIL,
    }
}

/// The format and fields of the instances of a class in one number.
fn shape(line: &ClassLine<'_>) -> i32
    requires format { is_between 0 31 line.now.format ≡ true }
    requires fields { is_between 0 65535 line.now.fields ≡ true }
    ensures { result ≡ line.now.format *ℤ pos 65536 +ℤ line.now.fields }
{
    line.format * 65536 + line.fields
}

/// A class. Its hash is its index in the class table.
pub(crate) fn class_object(
    alloc: Global,
    numbering: &Numbering<'_, '_>,
    line: &ClassLine<'_>,
) -> Result<Object, AllocError>
    requires stands { NumbersStand numbering.now }
    requires format { is_between 0 31 line.now.format ≡ true }
    requires fields { is_between 0 65535 line.now.fields ≡ true }
    ensures { IfOk result (λ o. laid_by o ≡ laid (class_object_of (forms_in numbering.now) (class_by line.now))) }
{
    let slots = [
        superclass(numbering, line),
        object_or_nil(numbering.dictionary_of(line.name)),
        Reference::Small(shape(line)),
        numbering.symbol(line.name),
    ];
    hashed_pointers(alloc, 33, 1, numbering.class_index(line.name), &slots)
}

/// Appends the selectors of methods.
fn put_selectors(
    slots: &mut Vec<Reference>,
    numbering: &Numbering<'_, '_>,
    methods: &[MethodLine<'_>],
) -> Result<(), AllocError>
    requires { NumbersStand numbering.now }
    ensures { OnOk result (map reference_by slots.new.items ≡ map reference_by slots.old.items
        ++ map (λ m. symbol_ref (forms_in numbering.now) m.selector) (map method_line_by methods.now)) }
{
    for method in methods {
        slots.push(numbering.symbol(method.selector))?;
    }
    Ok(())
}

/// Appends methods.
fn put_methods(
    slots: &mut Vec<Reference>,
    numbering: &Numbering<'_, '_>,
    methods: &[MethodLine<'_>],
) -> Result<(), AllocError>
    requires { NumbersStand numbering.now }
    ensures { OnOk result (map reference_by slots.new.items ≡ map reference_by slots.old.items
        ++ map (λ m. obj_or_nil (method_birth (forms_in numbering.now) m.class m.selector))
        (map method_line_by methods.now)) }
{
    for method in methods {
        let number = numbering.method_number(method.class, method.selector);
        slots.push(object_or_nil(number))?;
    }
    Ok(())
}

/// A number that isn't negative.
pub(crate) fn small(value: usize) -> Reference
    requires { value < 2 ^ 30 }
    ensures { reference_by result ≡ Small (pos value) }
{
    Reference::Small(value as i32)
}

/// The method dictionary of the class at a place: the tally, the array of values, and the selectors.
pub(crate) fn dictionary_object(
    alloc: Global,
    numbering: &Numbering<'_, '_>,
    place: u32,
    methods: &[MethodLine<'_>],
) -> Result<Object, AllocError>
    requires stands { NumbersStand numbering.now }
    requires place { place < 2 ^ 28 }
    requires few { length methods.now < 2 ^ 28 }
    ensures { IfOk result (λ o. laid_by o
        ≡ laid (dictionary_object_of (forms_in numbering.now) place (map method_line_by methods.now))) }
{
    let values = Reference::Object(numbering.dictionary(place) + 1);
    let mut slots = Vec::from_slice(alloc, &[small(methods.len()), values])?;
    put_selectors(&mut slots, numbering, methods)?;
    let object = pointers(alloc, 50, 3, &slots)?;
    Ok(object)
}

/// The array of the methods of a class.
pub(crate) fn values_object(
    alloc: Global,
    numbering: &Numbering<'_, '_>,
    methods: &[MethodLine<'_>],
) -> Result<Object, AllocError>
    requires { NumbersStand numbering.now }
    ensures { IfOk result (λ o. laid_by o
        ≡ laid (values_object_of (forms_in numbering.now) (map method_line_by methods.now))) }
{
    let mut slots = Vec::new(alloc);
    put_methods(&mut slots, numbering, methods)?;
    let object = pointers(alloc, 39, 2, &slots)?;
    Ok(object)
}

/// Appends what a line refers to, if it is a literal.
fn put_literal(
    slots: &mut Vec<Reference>,
    numbering: &Numbering<'_, '_>,
    form: &Form<'_>,
) -> Result<(), AllocError>
    requires { NumbersStand numbering.now }
    ensures { OnOk result (map reference_by slots.new.items ≡ map reference_by slots.old.items
        ++ method_literals (forms_in numbering.now) (form_by form.now ∷ [])) }
{
    match form {
        Form::Literal(value) => {
            slots.push(numbering.reference(value))?;
            Ok(())
        }
        _ => Ok(()),
    }
}

/// Appends the literals of a method.
fn put_literals(
    slots: &mut Vec<Reference>,
    numbering: &Numbering<'_, '_>,
    body: &[Form<'_>],
) -> Result<(), AllocError>
    requires { NumbersStand numbering.now }
    ensures { OnOk result (map reference_by slots.new.items ≡ map reference_by slots.old.items
        ++ method_literals (forms_in numbering.now) (map form_by body.now)) }
{
    for form in body {
        put_literal(slots, numbering, form)?;
    }
    Ok(())
}

/// The slot of a method that holds its header.
fn header_slot(line: &MethodLine<'_>, literals: usize) -> Reference
    requires line { method_fits (method_line_by line.now) ≡ true }
    requires few { literals < 2 ^ 28 }
    ensures { reference_by result ≡ Small (pos (built_header (method_line_by line.now) literals)) }
{
    Reference::Small(method_header(line, literals))
}

/// The slots of a method: its header and its literals.
fn method_slots(
    alloc: Global,
    numbering: &Numbering<'_, '_>,
    line: &MethodLine<'_>,
    method: &Numbered<'_, '_>,
) -> Result<Vec<Reference>, AllocError>
    requires stands { NumbersStand numbering.now }
    requires line { method_fits (method_line_by line.now) ≡ true }
    requires few { method.now.literals < 2 ^ 28 }
    ensures { IfOk result (λ slots. map reference_by slots.items
        ≡ Small (pos (built_header (method_line_by line.now) method.now.literals))
        ∷ method_literals (forms_in numbering.now) (map form_by method.now.body.now)) }
{
    let header = header_slot(line, method.literals);
    let mut slots = Vec::from_slice(alloc, &[header])?;
    put_literals(&mut slots, numbering, method.body)?;
    Ok(slots)
}

/// A method.
fn method_object(
    alloc: Global,
    numbering: &Numbering<'_, '_>,
    line: &MethodLine<'_>,
    method: &Numbered<'_, '_>,
) -> Result<Object, AllocError>
    requires stands { NumbersStand numbering.now }
    requires line { method_fits (method_line_by line.now) ≡ true }
    requires made { IsMethodMade method.now }
    ensures { IfOk result (λ o. laid_by o ≡ laid (method_made (forms_in numbering.now)
        (method_line_by line.now) (map form_by method.now.body.now))) }
{
    let slots = method_slots(alloc, numbering, line, method)?;
    let bytes = bytecodes_of(alloc, line, method.body)?;
    Ok(Object {
        class: 43,
        format: 24 + spare(bytes.len()),
        hash: 0,
        slots,
        bytes,
    })
}

// ---- processes

/// Appends nil so many times.
fn put_nils(slots: &mut Vec<Reference>, count: u32) -> Result<(), AllocError>
    ensures { OnOk result (map reference_by slots.new.items
        ≡ map reference_by slots.old.items ++ replicate count nil_ref) }
{
    for _ in 0..count {
        slots.push(NIL)?;
    }
    Ok(())
}

/// The first pc of a method, behind the bytecode that names its primitive.
fn first_pc(method: &Numbered<'_, '_>) -> Reference
    requires { method.now.literals < 2 ^ 27 }
    ensures { reference_by result ≡ Small (pos (begin_at method.now.literals (method_line_by method.now.line))) }
{
    let prefix = if method.line.primitive.is_some() {
        3
    } else {
        0
    };
    small(4 * (method.literals + 1) + 1 + prefix)
}

/// How many slots the contexts of a method have.
fn context_slots(line: &MethodLine<'_>) -> u32
    ensures { result ≡ most_temporaries (method_line_by line.now) }
{
    if line.large { 56 } else { 16 }
}

/// How many temporaries a method has.
fn temporaries_in(line: &MethodLine<'_>) -> u32
    ensures { result ≡ natural_in line.now.temporaries }
{
    natural(line.temporaries)
}

/// The context in which a process begins.
fn context_object(
    alloc: Global,
    numbering: &Numbering<'_, '_>,
    receiver: &Mention<'_>,
    method: &Numbered<'_, '_>,
) -> Result<Object, AllocError>
    requires stands { NumbersStand numbering.now }
    requires made { IsMethodMade method.now }
    ensures { IfOk result (λ o. laid_by o ≡ laid (Ctx (context_made (forms_in numbering.now)
        (method_line_by method.now.line) (map form_by method.now.body.now) (mention_by receiver.now)))) }
{
    let line = &method.line;
    let head = [
        NIL,
        first_pc(method),
        small(temporaries_in(line) as usize),
        object_or_nil(numbering.method_number(line.class, line.selector)),
        NIL,
        numbering.reference(receiver),
    ];
    let mut slots = Vec::from_slice(alloc, &head)?;
    put_nils(&mut slots, context_slots(line))?;
    let object = pointers(alloc, 36, 3, &slots)?;
    Ok(object)
}

/// The slot of a process that holds its priority.
fn priority_slot(line: &ProcessLine<'_>) -> Reference
    ensures { reference_by result ≡ Small line.now.priority }
{
    Reference::Small(line.priority)
}

/// The process of a line.
fn process_object(
    alloc: Global,
    numbering: &Numbering<'_, '_>,
    ready: &Ready<'_>,
    line: &ProcessLine<'_>,
) -> Result<Object, AllocError>
    requires stands { NumbersStand numbering.now }
    requires ready { AreReadied (forms_in numbering.now) ready.now }
    requires priority { is_between 1 8 line.now.priority ≡ true }
    ensures { IfOk result (λ o. laid_by o ≡ laid (process_made (forms_in numbering.now) (process_by line.now))) }
{
    let priority = priority_in(line);
    let behind = ready.queues[priority as usize - 1].behind(line.name);
    let slots = [
        process_or_nil(numbering, behind),
        object_or_nil(numbering.context(line.name)),
        priority_slot(line),
        list_if_ready(ready, priority, line.name),
    ];
    let object = pointers(alloc, 45, 1, &slots)?;
    Ok(object)
}

/// The list of a priority, if a process is ready, and nil otherwise.
fn list_if_ready(ready: &Ready<'_>, priority: u32, name: &[u8]) -> Reference
    requires { priority < 2 ^ 16 }
    ensures { (forms : List FormOf) → AreReadied forms ready.now → 1 ≤ priority
        → reference_by result ≡ list_if_ready forms priority name.now }
{
    if ready.has(name) {
        Reference::Object(7 + priority)
    } else {
        NIL
    }
}

// ---- lines

/// Appends a process: its context, and itself.
fn put_process(
    objects: &mut Vec<Object>,
    alloc: Global,
    numbering: &Numbering<'_, '_>,
    ready: &Ready<'_>,
    line: &ProcessLine<'_>,
) -> Result<(), AllocError>
    requires stands { NumbersStand numbering.now }
    requires ready { AreReadied (forms_in numbering.now) ready.now }
    requires priority { is_between 1 8 line.now.priority ≡ true }
    ensures { OnOk result (map laid_by objects.new.items ≡ map laid_by objects.old.items
        ++ map laid (process_objects (forms_in numbering.now) (process_by line.now))) }
{
    put_context(objects, alloc, numbering, line)?;
    let object = process_object(alloc, numbering, ready, line)?;
    objects.push(object)?;
    Ok(())
}

/// Appends the context in which a process begins.
fn put_context(
    objects: &mut Vec<Object>,
    alloc: Global,
    numbering: &Numbering<'_, '_>,
    line: &ProcessLine<'_>,
) -> Result<(), AllocError>
    requires { NumbersStand numbering.now }
    ensures { OnOk result (map laid_by objects.new.items ≡ map laid_by objects.old.items
        ++ map laid (contexts_made (forms_in numbering.now) (process_by line.now))) }
{
    match numbering.method(line.class, line.selector) {
        Some(method) => {
            let object = context_object(alloc, numbering, &line.receiver, &method)?;
            objects.push(object)?;
            Ok(())
        }
        None => Ok(()),
    }
}

/// Appends a method. It is one of the text's, so it has a number.
fn put_method(
    objects: &mut Vec<Object>,
    alloc: Global,
    numbering: &Numbering<'_, '_>,
    line: &MethodLine<'_>,
) -> Result<(), AllocError>
    requires stands { NumbersStand numbering.now }
    requires line { method_fits (method_line_by line.now) ≡ true }
    requires numbered { has_number (forms_in numbering.now) (Method (method_line_by line.now)) ≡ true }
    ensures { OnOk result (map laid_by objects.new.items ≡ map laid_by objects.old.items
        ++ laid (method_object_of (forms_in numbering.now) (method_line_by line.now)) ∷ []) }
{
    let Some(method) = numbering.method(line.class, line.selector) else {
        unreachable!()
    };
    let object = method_object(alloc, numbering, line, &method)?;
    objects.push(object)?;
    Ok(())
}

/// Appends a class.
fn put_class(
    objects: &mut Vec<Object>,
    alloc: Global,
    numbering: &Numbering<'_, '_>,
    line: &ClassLine<'_>,
) -> Result<(), AllocError>
    requires stands { NumbersStand numbering.now }
    requires sound { is_sound (Class (class_by line.now)) ≡ true }
    ensures { OnOk result (map laid_by objects.new.items ≡ map laid_by objects.old.items
        ++ laid (class_object_of (forms_in numbering.now) (class_by line.now)) ∷ []) }
{
    let object = class_object(alloc, numbering, line)?;
    objects.push(object)?;
    Ok(())
}

/// Appends an object of slots.
fn put_pointers(
    objects: &mut Vec<Object>,
    alloc: Global,
    numbering: &Numbering<'_, '_>,
    class: &[u8],
    values: &[Mention<'_>],
) -> Result<(), AllocError>
    requires { NumbersStand numbering.now }
    ensures { OnOk result (map laid_by objects.new.items ≡ map laid_by objects.old.items
        ++ laid (pointer_object_of (forms_in numbering.now) class.now (map mention_by values.now)) ∷ []) }
{
    let object = pointer_object(alloc, numbering, class, values)?;
    objects.push(object)?;
    Ok(())
}

/// Appends an object of bytes.
fn put_raw(
    objects: &mut Vec<Object>,
    alloc: Global,
    numbering: &Numbering<'_, '_>,
    class: &[u8],
    bytes: &[u8],
) -> Result<(), AllocError>
    requires { NumbersStand numbering.now }
    ensures { OnOk result (map laid_by objects.new.items ≡ map laid_by objects.old.items
        ++ laid (raw_object_of (class_index (forms_in numbering.now) class.now) bytes.now) ∷ []) }
{
    let object = raw_object(alloc, numbering.class_index(class), bytes)?;
    objects.push(object)?;
    Ok(())
}

/// Appends what a line makes.
pub(crate) fn put_form(
    objects: &mut Vec<Object>,
    alloc: Global,
    numbering: &Numbering<'_, '_>,
    ready: &Ready<'_>,
    form: &Form<'_>,
) -> Result<(), AllocError>
    requires stands { NumbersStand numbering.now }
    requires ready { AreReadied (forms_in numbering.now) ready.now }
    requires sound { is_sound (form_by form.now) ≡ true }
    requires numbered { has_number (forms_in numbering.now) (form_by form.now) ≡ true }
    ensures { OnOk result (map laid_by objects.new.items ≡ map laid_by objects.old.items
        ++ map laid (objects_in (forms_in numbering.now) (form_by form.now))) }
{
    match form {
        Form::Class(line) => put_class(objects, alloc, numbering, line),
        Form::Object { class, slots, .. } => put_pointers(objects, alloc, numbering, class, slots),
        Form::Bytes { class, bytes, .. } => put_raw(objects, alloc, numbering, class, bytes),
        Form::Method(line) => put_method(objects, alloc, numbering, line),
        Form::Process(line) => put_process(objects, alloc, numbering, ready, line),
        _ => Ok(()),
    }
}
