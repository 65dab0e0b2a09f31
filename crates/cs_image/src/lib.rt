//! Loading an image: from the bytes of a file to its objects in memory.
//!
//! An image file has a header of 64 bytes and behind it the heap: objects as 32-bit Spur lays them out, one right
//! behind another, with the addresses that they had where the file was written. The loader cuts the heap into its
//! objects, checks all that the machine relies on, and lays the visible objects out anew. What a file describes, and
//! each of its faults, is defined in the crate `cs_model`, in `specs/ImageFile.antt`, `specs/ImageFault.antt` and
//! `specs/Image.antt`.
#![tactic(auto)]

mod births;
mod check;
mod context;
mod cut;
mod error;
mod file;
mod header;
mod memory;
mod reference;
mod roots;
mod shape;
mod table;

ghost use Rattle.std.specs.Prelude.{◌≡◌, ℕ, ◌≤◌, ◌^◌, true, false, is_some, length, take, Bool, List, Some, None, Ok};
ghost use Rattle.std.specs.Prelude.{IfOk, map, ⊤};
ghost use Rattle.std.specs.FinSet.{empty};
ghost use Rattle.cs_model.specs.ImageFile.{births_in};
ghost use Rattle.cs_model.specs.ImageFile.{file_of, visible, words_in, cut_of, special_address, last_hash_in};
ghost use Rattle.cs_model.specs.ImageFault as fault;
ghost use Rattle.cs_model.specs.ImageFault.{bad_object, is_over, table_size};
ghost use Rattle.cs_model.specs.Image.{at_word, image_fault, image_of};
ghost use Rattle.cs_model.specs.Due.{is_idle};
ghost use Rattle.std.specs.FinMap.{get};
ghost use Rattle.cs_model.specs.Context.{closure_class};
ghost use Rattle.cs_model.specs.Obj.{Context, Ctx, context_class, is_context_at};
ghost use Rattle.cs_model.specs.Read.{IsRunning};
ghost use Rattle.cs_model.specs.Settle.{open_kept, opened};
ghost use Rattle.cs_model.specs.State.{IsValid, PcLies, object_at};
ghost use Rattle.cs_model.specs.declared.event.Event.{Event};
ghost use Rattle.cs_classes.specs.Meaning.{kept_of};
ghost use Rattle.cs_classes.specs.Senders.{SendersStand};
ghost use Rattle.cs_classes.specs.Sound.{IsWhole};
ghost use Rattle.cs_image.specs.Answer.{Tells, header_fault};
ghost use Rattle.cs_image.specs.Loading.{address_named, addresses_of, classes_at, loaded_from};

use births::{Births, read_births, visible_count};
use check::{check_header, check_objects};
pub use cs_classes::{Loaded, Roots};
pub use error::ImageError;
use file::FileHeap;
use header::{heap_words, u32_at};
use memory::{addresses, load_classes, load_objects, load_roots};
use std::alloc::{AllocError, Global};

/// The objects of a file whose header has no fault.
#[tactic(auto, unfolding(cs_model::specs::ImageFile::file_of))]
fn read_objects(alloc: Global, bytes: &[u8]) -> Result<FileHeap, ImageError>
    requires { header_fault bytes.now ≡ None }
    ensures { Tells (at_word fault.BadObject (bad_object (cut_of (words_in bytes.now))))
        (λ file. file ≡ file_of bytes.now)
        result }
{
    let words = heap_words(alloc, bytes)?;
    cut::cut(alloc, u32_at(bytes, 12), words)
}

/// A file without faults in memory.
fn build(
    alloc: Global,
    bytes: &[u8],
    file: &FileHeap,
    addresses: &[u32],
    births: &Births,
    limit_words: u32,
) -> Result<Loaded, AllocError>
    requires least { 4096 ≤ limit_words }
    requires most { limit_words ≤ 67108864 }
    requires long { 64 ≤ length bytes.now }
    requires addresses { addresses.now ≡ addresses_of file.now.objects 0 }
    requires births { length births.now.births.items ≡ length (visible file.now) }
    requires room { is_over file.now limit_words ≡ false }
    ensures limit { IfOk result (λ l. l.heap.limit ≡ limit_words) }
    ensures unwatched { IfOk result (λ l. l.heap.watched ≡ empty) }
    ensures clean { IfOk result (λ l. l.heap.dirty ≡ false) }
    ensures objects { IfOk result (λ l. l.heap.objects ≡ loaded_from file.now births.now.births.items 0
        (visible file.now)) }
    ensures classes { IfOk result (λ l. l.classes ≡ classes_at file.now table_size) }
    ensures special { IfOk result (λ l. l.roots.special.0 ≡ address_named file.now (special_address bytes.now)) }
    ensures hash { IfOk result (λ l. l.roots.last_hash ≡ last_hash_in bytes.now) }
    ensures next { IfOk result (λ l. l.roots.next_birth ≡ births.now.next) }
    ensures header { IfOk result (λ l. l.roots.header ≡ take 64 bytes.now) }
{
    let heap = load_objects(alloc, file, addresses, &births.births, limit_words)?;
    let classes = load_classes(alloc, file, addresses)?;
    let roots = load_roots(bytes, file, addresses, births.next);
    Ok(Loaded {
        heap,
        classes,
        roots,
    })
}

/// Loads the image in these bytes into a heap of `limit_words` words of 4 bytes, from 4,096 to 67,108,864.
///
/// The objects come in the order of the file, with the births of its birth section, and where it has none with their
/// places in that order, counted from 0. Objects of class index 0 are skipped, and those of class index 16, the class
/// table and its pages, are hidden and aren't loaded. Weak objects are read as ones with named and indexed fields, and
/// ephemerons as ones with named fields. An object is read-only where bit 23 of its header is 1 and it is no context;
/// the other flags of headers are dropped. No object is watched, and the heap isn't dirty. No context is active yet:
/// where a process is active it keeps one that is live, so that the state can be opened and runs. The pc of a context
/// is nil or lies in its method, and its sender is nil or a context. Opened for a run of any events, the state is a
/// valid one, and so is each that a run of it leaves.
///
/// An error says what the first fault is (see `ImageError`), and comes exactly where there is one; `NoMemory` alone is
/// free.
pub fn load(alloc: Global, bytes: &[u8], limit_words: u32) -> Result<Loaded, ImageError>
    requires least { 4096 ≤ limit_words }
    requires most { limit_words ≤ 67108864 }
    ensures fault { Tells (image_fault bytes.now limit_words) (λ _. ⊤) result }
    ensures state { IfOk result (λ l. image_of bytes.now limit_words ≡ Ok
        (kept_of l.heap.objects l.classes l.roots None)) }
    ensures opens { IfOk result (λ l. is_idle (kept_of l.heap.objects l.classes l.roots None) ≡ false
        → IsRunning (open_kept (kept_of l.heap.objects l.classes l.roots None))) }
    ensures sound { IfOk result (λ l. IsWhole l.heap.objects l.classes l.roots) }
    ensures next { IfOk result (λ l. l.roots.next_birth ≤ 2 ^ 62) }
    ensures pcs { IfOk result (λ l. (i : ℕ) (c : Context) → object_at
        (kept_of l.heap.objects l.classes l.roots None) i ≡ Some
        (Ctx c) → PcLies (kept_of l.heap.objects l.classes l.roots None) c) }
    ensures kinds { IfOk result (λ l. (is_some (get l.classes context_class) ≡ true)
        × (is_some (get l.classes closure_class) ≡ true)) }
    ensures nil { IfOk result (λ l. is_context_at (object_at (kept_of l.heap.objects l.classes l.roots None)
        (kept_of l.heap.objects l.classes l.roots None).rest.nil) ≡ false) }
    ensures senders { IfOk result (λ l. SendersStand (kept_of l.heap.objects l.classes l.roots None)) }
    ensures valid { IfOk result (λ l. (events : List Event) (snapping : Bool)
        → IsValid (opened (kept_of l.heap.objects l.classes l.roots None) events snapping)) }
    ensures births { IfOk result (λ l. map (λ x. x.birth) l.heap.objects
        ≡ births_in bytes.now (length l.heap.objects)) }
    ensures limit { IfOk result (λ l. l.heap.limit ≡ limit_words) }
    ensures unwatched { IfOk result (λ l. l.heap.watched ≡ empty) }
    ensures clean { IfOk result (λ l. l.heap.dirty ≡ false) }
{
    check_header(bytes)?;
    let file = read_objects(alloc, bytes)?;
    let addresses = addresses(alloc, &file, limit_words)?;
    check_objects(&file, u32_at(bytes, 16))?;
    let births = read_births(alloc, bytes, visible_count(&file))?;
    let loaded = build(alloc, bytes, &file, &addresses, &births, limit_words)?;
    Ok(loaded)
}
