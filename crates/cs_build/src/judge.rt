//! The faults of the lines of a text.

ghost use Rattle.std.specs.Prelude.{◌≡◌, ◌≤◌, ◌<◌, ◌||◌, ◌^◌, [], None, true, not};
ghost use Rattle.std.specs.Prelude.{length, map, is_some, option_map, IfOk, IfErr};
ghost use Rattle.std.specs.Option.{option_map_or};
ghost use Rattle.std.specs.List.{list_all, list_any};
ghost use Rattle.cs_model.specs.Assemble.{is_within};
ghost use Rattle.cs_model.specs.BuilderFault.{closure_bytes, fits, form_fault, has_literal_room, has_misfit, has_names};
ghost use Rattle.cs_model.specs.BuilderFault.{has_pointers, is_between, is_class_format, is_in_range, is_known};
ghost use Rattle.cs_model.specs.BuilderFault.{is_label_lost, is_object_class, is_twice, jump_code, lines_fault};
ghost use Rattle.cs_model.specs.BuilderFault.{may_have, mention_fault, mentions_in, method_fits, plain_bytes};
ghost use Rattle.cs_build.specs.Lines.{Judges, TellsFault, forms_by, numbered_by, lines_by};
ghost use Rattle.cs_build.specs.Meaning.{class_by, form_by, jump_by, mention_by, method_line_by};
ghost use Rattle.cs_build.specs.Tabled.{AreTables, IsAbove, above_by, body_by, is_misfit as is_misfit_in};

use crate::above::Above;
use crate::code::{byte_count, first_form};
use crate::error::BuildError;
use crate::form::{ClassLine, Form, Jump, Mention, MethodLine};
use crate::lines::Line;
use crate::tables::{Tables, first_tables, note};
use crate::word::is_word;
use cs_model::Op;
use std::alloc::Global;

/// Judges lines against those above them: what all of them say by name, or the first fault.
pub(crate) fn judge_lines<'a>(alloc: Global, lines: &[Line<'a>]) -> Result<Tables<'a>, BuildError>
    requires { length lines.now ≤ 262144 }
    ensures tables { IfOk result (λ tables. AreTables tables (forms_by lines.now)) }
    ensures none { IfOk result (λ _. lines_fault [] (lines_by lines.now) ≡ None) }
    ensures fault { IfErr result (TellsFault (lines_fault [] (lines_by lines.now))) }
{
    let mut tables = first_tables(alloc)?;
    for i in 0..lines.len() {
        let above = &lines[..i];
        let line = &lines[i];
        judge(&tables, above, line)?;
        note(alloc, &mut tables, above, &line.form)?;
    }
    Ok(tables)
}

/// Judges a line against those above it.
fn judge<'a>(tables: &Tables<'a>, above: &[Line<'a>], line: &Line<'a>) -> Result<(), BuildError>
    requires few { length above.now ≤ 262144 }
    requires tables { AreTables tables.now (forms_by above.now) }
    ensures { Judges (form_fault (forms_by above.now) line.now.number (form_by line.now.form)) result }
{
    let above = Above {
        tables,
        lines: above,
    };
    let number = line.number;
    if is_twice(&above, &line.form) {
        Err(BuildError::Twice { line: number })
    } else if !is_in_range(&above, &line.form) {
        Err(BuildError::BadRange { line: number })
    } else if !has_names(&above, &line.form) {
        Err(BuildError::BadName { line: number })
    } else {
        Ok(())
    }
}

/// Whether what a line names stands above already.
fn is_twice<'a>(above: &Above<'_, 'a>, form: &Form<'a>) -> bool
    requires { IsAbove above.now }
    ensures { result ≡ is_twice (above_by above.now) (form_by form.now) }
{
    match form {
        Form::Class(line) => above.is_taken(line.name),
        Form::Process(line) => above.is_taken(line.name),
        Form::Object { name, .. } => above.is_taken(name),
        Form::Bytes { name, .. } => above.is_taken(name),
        Form::Method(line) => above.is_method(line.class, line.selector),
        Form::Active(_) => above.tables.has_active,
        Form::Label(name) => above.is_label(name),
        _ => false,
    }
}

/// Whether the numbers and counts of a line fit.
fn is_in_range<'a>(above: &Above<'_, 'a>, form: &Form<'a>) -> bool
    requires { IsAbove above.now }
    ensures { result ≡ is_in_range (above_by above.now) (form_by form.now) }
{
    match form {
        Form::Class(line) => is_class_format(line.format) && is_between(0, 65_535, line.fields),
        Form::Object { class, slots, .. } => {
            all_fit(slots) && slots_fit(above.class_named(class), slots.len())
        }
        Form::Method(line) => method_fits(line),
        Form::Process(line) => is_between(1, 8, line.priority) && fits(line.receiver),
        Form::Special { place, value } => {
            is_between(0, 50, *place) && !is_between(3, 3, *place) && fits(*value)
        }
        Form::Literal(value) => fits(*value) && above.tables.body.literals < MOST_LITERALS,
        Form::Byte(value) => is_between(0, 255, *value),
        Form::Plain(op) => is_formed(*op),
        Form::ClosureTo { copied, args, .. } => closure_fits(*copied, *args, 0),
        Form::End => !has_misfit(above),
        _ => true,
    }
}

/// The most literals of a method.
const MOST_LITERALS: u32 = 32_767;

/// Whether a number lies between two, or is one of them.
fn is_between(lowest: u32, highest: u32, number: i32) -> bool
    requires { highest < 2 ^ 31 }
    ensures { result ≡ is_between lowest highest number }
{
    i64::from(lowest) <= i64::from(number) && i64::from(number) <= i64::from(highest)
}

/// Whether instances of a class may have this format, or it is that of methods.
fn is_class_format(format: i32) -> bool
    ensures { result ≡ is_class_format format }
{
    match format {
        0..=5 | 9 | 10 | 12 | 16 | 24 => true,
        _ => false,
    }
}

/// Whether a reference's number fits: a SmallInteger has 31 bits, and a Character's code 30.
fn fits(mention: Mention<'_>) -> bool
    ensures { result ≡ fits (mention_by mention.entry) }
{
    match mention {
        Mention::Number(value) => -1_073_741_824 <= value && value < 1_073_741_824,
        Mention::Code(value) => 0 <= value && value < 1_073_741_824,
        _ => true,
    }
}

/// Whether the numbers of all references fit.
fn all_fit(mentions: &[Mention<'_>]) -> bool
    ensures { result ≡ list_all fits (map mention_by mentions.now) }
{
    for mention in mentions {
        if !fits(*mention) {
            return false;
        }
    }
    true
}

/// Whether an instance of a class, if it is one of pointers, may have so many slots.
fn slots_fit(class: Option<ClassLine<'_>>, count: usize) -> bool
    ensures { result
        ≡ option_map_or (λ c. not (has_pointers c) || may_have count c) (option_map class_by class.entry) true }
{
    match class {
        Some(line) => !has_pointers(&line) || may_have(count, &line),
        None => true,
    }
}

/// Whether a class has instances of pointers.
fn has_pointers(line: &ClassLine<'_>) -> bool
    ensures { result ≡ has_pointers (class_by line.now) }
{
    is_between(0, 5, line.format)
}

/// Whether an instance may have so many slots: none without fields, and else as many as there are fields, or more.
fn may_have(count: usize, line: &ClassLine<'_>) -> bool
    ensures { result ≡ may_have count (class_by line.now) }
{
    if is_between(0, 0, line.format) {
        count == 0
    } else {
        line.fields < 0 || line.fields as usize <= count
    }
}

/// Whether the numbers of a method fit.
fn method_fits(line: &MethodLine<'_>) -> bool
    ensures { result ≡ method_fits (method_line_by line.now) }
{
    let most = if line.large { 56 } else { 16 };
    is_between(0, 15, line.arguments)
        && is_between(0, most, line.temporaries)
        && line.arguments <= line.temporaries
        && primitive_fits(line.primitive)
}

/// Whether a primitive has a number that fits, if there is one.
fn primitive_fits(primitive: Option<i32>) -> bool
    ensures { result ≡ option_map_or (is_between 0 65535) primitive true }
{
    match primitive {
        Some(number) => is_between(0, 65_535, number),
        None => true,
    }
}

/// Whether there is an instruction, and it comes in a form.
fn is_formed(op: Option<Op>) -> bool
    ensures { result ≡ is_some (plain_bytes op) }
{
    match op {
        Some(op) => first_form(op).is_some(),
        None => false,
    }
}

/// Whether an instruction makes a closure of so many values and arguments, with a block of so many bytes.
fn closure_fits(copied: i32, args: i32, size: i64) -> bool
    ensures { result ≡ is_some (closure_bytes copied args size) }
{
    0 <= copied && copied < 16 && 0 <= args && args < 16 && 0 <= size && size < 65_536
}

/// Whether a jump goes so far.
fn jump_fits(jump: Jump, offset: i64) -> bool
    ensures { result ≡ is_some (jump_code (jump_by jump) offset) }
{
    match jump {
        Jump::Always => -1_024 <= offset && offset < 1_024,
        Jump::IfTrue => 0 <= offset && offset < 1_024,
        Jump::IfFalse => 0 <= offset && offset < 1_024,
    }
}

// ---- the end of a method

/// Whether some line of a method has a label, if any, and makes no code: a jump or a block that doesn't fit.
fn has_misfit(above: &Above<'_, '_>) -> bool
    requires { IsAbove above.now }
    ensures { result ≡ has_misfit (body_by above.now) 0 (body_by above.now) }
{
    let body = above.body();
    let mut place = 0u32;
    for line in body {
        if is_misfit(above, place, &line.form) {
            return true;
        }
        place += byte_count(&line.form);
    }
    false
}

/// Whether a line at a place of a method's code has a label, if any, and makes no code.
fn is_misfit<'a>(above: &Above<'_, 'a>, place: u32, form: &Form<'a>) -> bool
    requires above { IsAbove above.now }
    requires place { place ≤ 2 ^ 24 }
    ensures { result ≡ is_misfit_in (body_by above.now) place (form_by form.now) }
{
    match form {
        Form::Byte(value) => *value < 0,
        Form::Plain(op) => !is_formed(*op),
        Form::JumpTo { jump, label } => match above.place_of(label) {
            Some(to) => !jump_fits(*jump, i64::from(to) - i64::from(place + 2)),
            None => false,
        },
        Form::ClosureTo {
            copied,
            args,
            label,
        } => match above.place_of(label) {
            Some(to) => !closure_fits(*copied, *args, i64::from(to) - i64::from(place + 4)),
            None => false,
        },
        _ => false,
    }
}

/// Whether some line of a method has a label that isn't there.
fn has_lost(above: &Above<'_, '_>) -> bool
    requires { IsAbove above.now }
    ensures { result ≡ list_any (is_label_lost (body_by above.now)) (body_by above.now) }
{
    let body = above.body();
    for line in body {
        if is_lost(above, &line.form) {
            return true;
        }
    }
    false
}

/// Whether a line has a label that isn't there.
fn is_lost<'a>(above: &Above<'_, 'a>, form: &Form<'a>) -> bool
    requires { IsAbove above.now }
    ensures { result ≡ is_label_lost (body_by above.now) (form_by form.now) }
{
    match form {
        Form::JumpTo { label, .. } => above.place_of(label).is_none(),
        Form::ClosureTo { label, .. } => above.place_of(label).is_none(),
        _ => false,
    }
}

// ---- names

/// Whether the names that the form of a line needs stand above it.
fn has_names<'a>(above: &Above<'_, 'a>, form: &Form<'a>) -> bool
    requires { IsAbove above.now }
    ensures { result ≡ has_names (above_by above.now) (form_by form.now) }
{
    match form {
        Form::Class(line) => match line.superclass {
            Some(name) => above.is_class(name),
            None => true,
        },
        Form::Object { class, .. } => match above.class_named(class) {
            Some(line) => is_object_class(&line),
            None => false,
        },
        Form::Bytes { class, .. } => match above.class_named(class) {
            Some(line) => is_between(16, 16, line.format),
            None => false,
        },
        Form::Method(line) => above.is_class(line.class),
        Form::Process(line) => match above.arguments_of(line.class, line.selector) {
            Some(arguments) => is_between(0, 0, arguments),
            None => false,
        },
        Form::Active(name) => above.is_process(name),
        Form::Ready(name) => above.is_process(name),
        Form::End => !has_lost(above),
        _ => true,
    }
}

/// Whether objects of slots may have a class: one of pointers that isn't Context.
fn is_object_class(line: &ClassLine<'_>) -> bool
    ensures { result ≡ is_object_class (class_by line.now) }
{
    has_pointers(line) && !is_word(line.name, "Context")
}

// ---- references

/// Looks for the first line with a reference to something that the text doesn't have.
pub(crate) fn judge_mentions(tables: &Tables<'_>, lines: &[Line<'_>]) -> Result<(), BuildError>
    requires few { length lines.now ≤ 262144 }
    requires tables { AreTables tables.now (forms_by lines.now) }
    ensures { Judges (mention_fault (forms_by lines.now) (lines_by lines.now)) result }
{
    let above = Above { tables, lines };
    for line in lines {
        if !is_all_known(&above, &line.form) {
            return Err(BuildError::BadName { line: line.number });
        }
    }
    Ok(())
}

/// Whether the text has all that a line refers to.
fn is_all_known<'a>(above: &Above<'_, 'a>, form: &Form<'a>) -> bool
    requires { IsAbove above.now }
    ensures { result ≡ list_all (is_known (above_by above.now)) (mentions_in (form_by form.now)) }
{
    match form {
        Form::Object { slots, .. } => are_known(above, slots),
        Form::Process(line) => is_known(above, line.receiver),
        Form::Special { value, .. } => is_known(above, *value),
        Form::Literal(value) => is_known(above, *value),
        _ => true,
    }
}

/// Whether the text has all of these.
fn are_known<'a>(above: &Above<'_, 'a>, mentions: &[Mention<'a>]) -> bool
    requires { IsAbove above.now }
    ensures { result ≡ list_all (is_known (above_by above.now)) (map mention_by mentions.now) }
{
    for mention in mentions {
        if !is_known(above, *mention) {
            return false;
        }
    }
    true
}

/// Whether the text has what a reference names.
fn is_known<'a>(above: &Above<'_, 'a>, mention: Mention<'a>) -> bool
    requires { IsAbove above.now }
    ensures { result ≡ is_known (above_by above.now) (mention_by mention.entry) }
{
    match mention {
        Mention::Named(name) => above.is_taken(name),
        Mention::Dictionary(class) => above.is_class(class),
        Mention::Values(class) => above.is_class(class),
        Mention::MethodOf { class, selector } => above.is_method(class, selector),
        _ => true,
    }
}
