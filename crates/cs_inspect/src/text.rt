//! The parts that a printed line is made of: words, numbers, references and bytes.

ghost use Rattle.std.specs.Prelude.{◌≡◌, ℕ, ◌-◌, ◌*◌, ◌<◌, ◌≤◌, ◌++◌, true, OnOk};
ghost use Rattle.std.specs.Prelude.{drop, flat_map, map, take};
ghost use Rattle.cs_word.specs.Word.{natural_of_word};
ghost use Rattle.cs_model.specs.Words.{bytes_of_words};
ghost use Rattle.cs_heap.specs.Object.{slot_count_of, slot_of, words_at};
ghost use Rattle.cs_model.specs.Print.{byte_text, bytes_text, pc_text, ref_text, refs_text};
ghost use Rattle.cs_classes.specs.Meaning.{ref_of};
ghost use Rattle.cs_classes.specs.Sound.{is_reference};
ghost use Rattle.cs_inspect.specs.Reading.{names_object};

use cs_heap::Heap;
use cs_word::{Kind, Oop};
use itoa::{Buffer, Integer};
use std::alloc::AllocError;

/// Appends bytes as they are.
fn push_slice(text: &mut Vec<u8>, bytes: &[u8]) -> Result<(), AllocError>
    ensures { OnOk result (text.new.items ≡ text.old.items ++ bytes.now) }
{
    text.extend_from_slice(bytes)
}

/// Appends words as they are.
pub(crate) fn push_text(text: &mut Vec<u8>, words: &str) -> Result<(), AllocError>
    ensures { OnOk result (text.new.items ≡ text.old.items ++ words.now) }
{
    push_slice(text, words.as_bytes())
}

/// Appends a number in decimal.
pub(crate) fn push_number<I: Integer>(text: &mut Vec<u8>, number: I) -> Result<(), AllocError>
    ensures { OnOk result (text.new.items ≡ text.old.items ++ I.text number) }
{
    push_text(text, Buffer::new().format(number))
}

/// Appends a name and a number in decimal.
pub(crate) fn push_field<I: Integer>(
    text: &mut Vec<u8>,
    name: &str,
    number: I,
) -> Result<(), AllocError>
    ensures { OnOk result (text.new.items ≡ text.old.items ++ (name.now ++ I.text number)) }
{
    push_text(text, name)?;
    push_number(text, number)
}

/// Appends what a word refers to: a decimal number, a dollar sign and the code of a Character, or an at sign and the
/// birth of an object. A link, which no image has, is read as 0.
pub(crate) fn push_reference(text: &mut Vec<u8>, heap: &Heap, word: Oop) -> Result<(), AllocError>
    requires { names_object heap.now.objects word.0 ≡ true }
    ensures { OnOk result (text.new.items ≡ text.old.items ++ ref_text (ref_of heap.now.objects word.0)) }
{
    match word.kind() {
        Kind::Small(value) => push_number(text, value),
        Kind::Character(code) => push_field(text, "$", code),
        Kind::Object(_) => push_field(text, "@", heap.birth(word)),
        Kind::Link(_) => push_number(text, 0_u32),
    }
}

/// Appends a space and a reference for each slot of an object from `from` to before `end`.
pub(crate) fn push_references(
    text: &mut Vec<u8>,
    heap: &Heap,
    o: Oop,
    from: u32,
    end: u32,
) -> Result<(), AllocError>
    requires begun { from ≤ end }
    requires within { end ≤ slot_count_of heap.now.objects o.0 }
    requires references { (i : ℕ) → from ≤ i → i < end
        → is_reference heap.now.objects (slot_of heap.now.objects o.0 i) ≡ true }
    ensures { OnOk result (text.new.items ≡ text.old.items
        ++ refs_text (map (ref_of heap.now.objects) (take (end - from) (drop from (words_at heap.now.objects o.0))))) }
{
    for i in from..end {
        push_text(text, " ")?;
        push_reference(text, heap, heap.slot(o, i))?;
    }
    Ok(())
}

/// Appends a byte as two hex digits.
fn push_byte(text: &mut Vec<u8>, byte: u8) -> Result<(), AllocError>
    ensures { OnOk result (text.new.items ≡ text.old.items ++ byte_text byte) }
{
    let mut digits = [0; 2];
    let Ok(()) = hex::encode_to_slice([byte], &mut digits) else {
        unreachable!();
    };
    push_slice(text, &digits)
}

/// Appends the bytes of an object from `from` to before `end` in hex digits.
fn push_digits(
    text: &mut Vec<u8>,
    heap: &Heap,
    o: Oop,
    from: u32,
    end: u32,
) -> Result<(), AllocError>
    requires begun { from ≤ end }
    requires within { end ≤ 4 * slot_count_of heap.now.objects o.0 }
    ensures { OnOk result (text.new.items ≡ text.old.items
        ++ flat_map byte_text (take (end - from) (drop from (bytes_of_words (words_at heap.now.objects o.0))))) }
{
    for i in from..end {
        push_byte(text, heap.byte(o, i))?;
    }
    Ok(())
}

/// Appends the bytes of an object from `from` to before `end`: where there are any, a space and then their hex digits.
pub(crate) fn push_bytes(
    text: &mut Vec<u8>,
    heap: &Heap,
    o: Oop,
    from: u32,
    end: u32,
) -> Result<(), AllocError>
    requires begun { from ≤ end }
    requires within { end ≤ 4 * slot_count_of heap.now.objects o.0 }
    ensures { OnOk result (text.new.items ≡ text.old.items
        ++ bytes_text (take (end - from) (drop from (bytes_of_words (words_at heap.now.objects o.0))))) }
{
    if from == end {
        return Ok(());
    }
    push_text(text, " ")?;
    push_digits(text, heap, o, from, end)
}

/// Appends the pc that a word says: a number, or nil.
pub(crate) fn push_pc(text: &mut Vec<u8>, word: Oop) -> Result<(), AllocError>
    ensures { OnOk result (text.new.items ≡ text.old.items ++ pc_text (natural_of_word word.0)) }
{
    match word.natural() {
        Some(pc) => push_number(text, pc),
        None => push_text(text, "nil"),
    }
}
