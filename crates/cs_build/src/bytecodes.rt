//! The bytecodes of a method.

ghost use Rattle.std.specs.Prelude.{◌≡◌, ◌++◌, ◌∷◌, ◌+◌, ◌*◌, ◌/◌, ◌%◌, ◌^◌, ◌<◌, ◌≤◌, [], ℕ, List, Option, Some, None};
ghost use Rattle.std.specs.Prelude.{if◌then◌else◌, is_some, true, length, map};
ghost use Rattle.cs_model.specs.Ref.{natural_of};
ghost use Rattle.std.specs.Prelude.{option_and_then, option_map, pos, ◌-ℤ◌, unwrap_or, IfOk, IfSome, OnOk};
ghost use Rattle.std.specs.Option.{option_map_or, option_or};
ghost use Rattle.std.specs.List.{list_all};
ghost use Rattle.cs_model.specs.Assemble.{IsInstr, assembled};
ghost use Rattle.cs_model.specs.BuilderText as text;
ghost use Rattle.cs_model.specs.BuilderFault.{closure_bytes, code_from, form_bytes};
ghost use Rattle.cs_model.specs.BuilderFault.{is_between, is_label, jump_code, label_place, line_bytes, plain_bytes};
ghost use Rattle.cs_model.specs.Builder.{primitive_bytes};
ghost use Rattle.cs_build.specs.Meaning.{form_by, jump_by};
ghost use Rattle.cs_build.specs.Numbered.{name_number};
ghost use Rattle.cs_build.specs.Sound.{AreLabels, is_sound};

use crate::classes::note;
use crate::code::{byte_count, first_form, of_length};
use crate::form::{Form, Jump, MethodLine};
use crate::making::natural;
use cs_decode::assemble;
use cs_model::{Instr, Op};
use indexmap::IndexMap;
use std::alloc::{AllocError, Global};

/// Takes up the label of a line at a place, if it is one.
fn note_label<'a>(
    places: &mut IndexMap<&'a [u8], u32>,
    form: &Form<'a>,
    place: u32,
) -> Result<(), AllocError>
    ensures { OnOk result ((q : List ℕ) → name_number places.new q
        ≡ option_or (name_number places.old q) (if is_label q (form_by form.now) then Some place else None)) }
{
    match form {
        Form::Label(name) => note(places, *name, place),
        _ => Ok(()),
    }
}

/// The places of the labels of a method's lines, counted in bytes.
fn label_places<'a>(alloc: Global, body: &[Form<'a>]) -> Result<IndexMap<&'a [u8], u32>, AllocError>
    requires { length body.now < 2 ^ 26 }
    ensures { IfOk result (λ places. AreLabels places (map form_by body.now)) }
{
    let mut places = IndexMap::new(alloc);
    let mut place = 0;
    for form in body {
        note_label(&mut places, form, place)?;
        place += byte_count(form);
    }
    Ok(places)
}

/// The first form of an instruction that its numbers fit.
fn plain_form(op: Option<Op>) -> Option<Instr>
    ensures code { option_map assembled result ≡ plain_bytes op }
    ensures form { IfSome result IsInstr }
{
    match op {
        Some(op) => first_form(op),
        None => None,
    }
}

/// Whether a jump goes so far.
fn jump_reaches(jump: Jump, offset: i32) -> bool
    ensures { result ≡ is_some (jump_code (jump_by jump) offset) }
{
    match jump {
        Jump::Always => -1_024 <= offset && offset < 1_024,
        Jump::IfTrue => 0 <= offset && offset < 1_024,
        Jump::IfFalse => 0 <= offset && offset < 1_024,
    }
}

/// A jump by an offset, which always takes two bytes.
fn jump_form(jump: Jump, offset: i32) -> Option<Instr>
    ensures code { option_map assembled result ≡ jump_code (jump_by jump) offset }
    ensures form { IfSome result IsInstr }
{
    if !jump_reaches(jump, offset) {
        return None;
    }
    match jump {
        Jump::Always => of_length(Op::Jump(offset as i16), 2),
        Jump::IfTrue => of_length(Op::JumpTrue(offset as u16), 2),
        Jump::IfFalse => of_length(Op::JumpFalse(offset as u16), 2),
    }
}

/// Whether an instruction makes a closure of so many values and arguments, with a block of so many bytes.
fn closure_reaches(copied: i32, args: i32, size: i32) -> bool
    ensures { result ≡ is_some (closure_bytes copied args size) }
{
    0 <= copied && copied < 16 && 0 <= args && args < 16 && 0 <= size && size < 65_536
}

/// A closure of so many values and arguments, with a block of so many bytes.
fn closure_form(copied: i32, args: i32, size: i32) -> Option<Instr>
    ensures code { option_map assembled result ≡ closure_bytes copied args size }
    ensures form { IfSome result IsInstr }
{
    if !closure_reaches(copied, args, size) {
        return None;
    }
    let op = Op::Closure {
        copied: copied as u8,
        args: args as u8,
        size: size as u16,
    };
    of_length(op, 4)
}

/// Appends an instruction, if there is one.
fn put_instruction(code: &mut Vec<u8>, instruction: Option<Instr>) -> Result<(), AllocError>
    requires { IfSome instruction IsInstr }
    ensures { OnOk result (code.new.items ≡ code.old.items ++ unwrap_or (option_map assembled instruction) []) }
{
    match instruction {
        Some(instruction) => code.extend_from_slice(&assemble(&instruction)),
        None => Ok(()),
    }
}

/// The place of a label.
fn label_at(places: &IndexMap<&[u8], u32>, label: &[u8]) -> Option<u32>
    ensures { result ≡ name_number places.now label.now }
{
    places.get(label).copied()
}

/// How far it is from a place to another.
fn offset(to: u32, from: u32) -> i32
    requires to { to < 2 ^ 28 }
    requires from { from < 2 ^ 29 }
    ensures { result ≡ pos to -ℤ pos from }
{
    to as i32 - from as i32
}

/// The jump of a line at a place to a label, if it fits.
fn jump_at(places: &IndexMap<&[u8], u32>, place: u32, jump: Jump, label: &[u8]) -> Option<Instr>
    requires place { place < 2 ^ 28 }
    requires places { IfSome (name_number places.now label.now) (λ to. to < 2 ^ 28) }
    ensures code { option_map assembled result ≡ option_and_then
        (λ to. jump_code (jump_by jump) (pos to -ℤ pos (place + 2))) (name_number places.now label.now) }
    ensures form { IfSome result IsInstr }
{
    match label_at(places, label) {
        Some(to) => jump_form(jump, offset(to, place + 2)),
        None => None,
    }
}

/// The closure of a line at a place, whose block goes to a label, if it fits.
fn closure_at(
    places: &IndexMap<&[u8], u32>,
    place: u32,
    copied: i32,
    args: i32,
    label: &[u8],
) -> Option<Instr>
    requires place { place < 2 ^ 28 }
    requires places { IfSome (name_number places.now label.now) (λ to. to < 2 ^ 28) }
    ensures code { option_map assembled result ≡ option_and_then
        (λ to. closure_bytes copied args (pos to -ℤ pos (place + 4))) (name_number places.now label.now) }
    ensures form { IfSome result IsInstr }
{
    match label_at(places, label) {
        Some(to) => closure_form(copied, args, offset(to, place + 4)),
        None => None,
    }
}

/// Appends the bytes of a line at a place of a method.
fn put_line(
    code: &mut Vec<u8>,
    places: &IndexMap<&[u8], u32>,
    place: u32,
    form: &Form<'_>,
) -> Result<(), AllocError>
    requires place { place < 2 ^ 28 }
    requires places { (q : List ℕ) → IfSome (name_number places.now q) (λ to. to < 2 ^ 28) }
    requires sound { is_sound (form_by form.now) ≡ true }
    ensures { OnOk result ((body : List text.Form) → AreLabels places.now body
        → code.new.items ≡ code.old.items ++ unwrap_or (line_bytes body place (form_by form.now)) []) }
{
    match form {
        Form::Byte(value) => put_byte(code, *value),
        Form::Plain(op) => put_instruction(code, plain_form(*op)),
        Form::JumpTo { jump, label } => put_instruction(
            code,
            jump_at(places, place, *jump, *label),
        ),
        Form::ClosureTo {
            copied,
            args,
            label,
        } => put_instruction(code, closure_at(places, place, *copied, *args, *label)),
        _ => Ok(()),
    }
}

/// Appends a byte.
fn put_byte(code: &mut Vec<u8>, value: i32) -> Result<(), AllocError>
    requires { is_between 0 255 value ≡ true }
    ensures { OnOk result (code.new.items
        ≡ code.old.items ++ unwrap_or (option_map (λ b. b ∷ []) (natural_of value)) []) }
{
    code.push(value as u8)?;
    Ok(())
}

/// Appends the bytes of a method's lines.
fn put_body(code: &mut Vec<u8>, alloc: Global, body: &[Form<'_>]) -> Result<(), AllocError>
    requires few { length body.now < 2 ^ 26 }
    requires sound { list_all is_sound (map form_by body.now) ≡ true }
    ensures { OnOk result (code.new.items
        ≡ code.old.items ++ code_from (map form_by body.now) 0 (map form_by body.now)) }
{
    let places = label_places(alloc, body)?;
    let mut place = 0;
    for form in body {
        put_line(code, &places, place, form)?;
        place += byte_count(form);
    }
    Ok(())
}

/// Appends the bytecode that names a method's primitive, if it has one.
fn put_primitive(code: &mut Vec<u8>, primitive: Option<i32>) -> Result<(), AllocError>
    requires { option_map_or (is_between 0 65535) primitive true ≡ true }
    ensures { OnOk result (code.new.items ≡ code.old.items ++ primitive_bytes primitive) }
{
    match primitive {
        Some(number) => put_number(code, natural(number)),
        None => Ok(()),
    }
}

/// Appends the bytecode that names a primitive.
fn put_number(code: &mut Vec<u8>, number: u32) -> Result<(), AllocError>
    requires { number < 65536 }
    ensures { OnOk result (code.new.items ≡ code.old.items ++ 139 ∷ number % 256 ∷ number / 256 ∷ []) }
{
    code.extend_from_slice(&[139, (number % 256) as u8, (number / 256) as u8])
}

/// The bytecodes of a method: the one that names its primitive, and those of its lines.
pub(crate) fn bytecodes_of(
    alloc: Global,
    line: &MethodLine<'_>,
    body: &[Form<'_>],
) -> Result<Vec<u8>, AllocError>
    requires few { length body.now < 2 ^ 26 }
    requires primitive { option_map_or (is_between 0 65535) line.now.primitive true ≡ true }
    requires sound { list_all is_sound (map form_by body.now) ≡ true }
    ensures { IfOk result (λ code. code.items
        ≡ primitive_bytes line.now.primitive ++ code_from (map form_by body.now) 0 (map form_by body.now)) }
{
    let mut code = Vec::new(alloc);
    put_primitive(&mut code, line.primitive)?;
    put_body(&mut code, alloc, body)?;
    Ok(code)
}
