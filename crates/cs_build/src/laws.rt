//! What holds of each image that is built.

ghost use Rattle.std.specs.Prelude.{◌≡◌, ◌+◌, ◌*◌, ◌/◌, ◌≤◌, ℕ, List, length, map, None, Ok};
ghost use Rattle.std.specs.List.{AllByRecursion};
ghost use Rattle.std.specs.Ordering.{nat_cmp};
ghost use Rattle.std.specs.FinMap.{FinMap};
ghost use Rattle.cs_model.specs.Obj.{Obj};
ghost use Rattle.cs_model.specs.Builder.{class_table, text_state};
ghost use Rattle.cs_model.specs.BuilderFault.{forms_of, text_fault};
ghost use Rattle.cs_model.specs.Image.{image_of};
ghost use Rattle.cs_model.specs.SavedFile.{saved_bytes};
ghost use Rattle.cs_build.specs.Laid.{laid, laid_size, file_for};
ghost use Rattle.cs_build.specs.Judged.{IsJudged};
ghost use Rattle.cs_build.specs.Stored.{IsByte};
ghost use Rattle.cs_build.specs.Wholes.{objects_made, table_made};
ghost use Rattle.cs_build.specs.Formed.{IsFormedImage, HasRoom, IsTableOf, state_by};

/// The image of the file of formed objects is the state of these, where there is room for them in a file and in a heap
/// of this limit.
pub fn the_image_of_formed_objects_is_their_state()
    ensures { (os : List Obj) (table : List ℕ) (classes : FinMap nat_cmp ℕ) (limit : ℕ) → IsFormedImage os table
        → HasRoom os table limit → IsTableOf table classes
        → image_of (saved_bytes (file_for (map laid os) table)) limit ≡ Ok (state_by os classes) }
{}

/// The lines of a text of bytes that has no fault are judged: each is new, in range and has the names that it needs
/// behind those above it, all that lines refer to is there, and each method has its end.
pub fn a_text_without_fault_is_judged()
    ensures { (text : List ℕ) → AllByRecursion IsByte text → text_fault text ≡ None → IsJudged (forms_of text) }
{}

/// The objects of a text without fault are those of an image that can be opened, and its class table is the text's,
/// where a file of 536,870,912 bytes has room for them.
pub fn the_objects_of_a_text_without_fault_are_formed()
    ensures formed { (text : List ℕ) → AllByRecursion IsByte text → text_fault text ≡ None
        → 64 + 4 * (laid_size (map laid (objects_made (forms_of text))) + 22
        + 1028 * (length (table_made (forms_of text)) / 1024)) ≤ 536870912
        → IsFormedImage (objects_made (forms_of text)) (table_made (forms_of text)) }
    ensures classes { (text : List ℕ) → AllByRecursion IsByte text → text_fault text ≡ None
        → IsTableOf (table_made (forms_of text)) (class_table (forms_of text)) }
{}

/// The image of the file of a text without fault is the state that the text describes, where there is room for it in a
/// file and in a heap of this limit.
pub fn the_image_of_a_text_without_fault_is_its_state()
    ensures { (text : List ℕ) (limit : ℕ) → AllByRecursion IsByte text → text_fault text ≡ None
        → HasRoom (objects_made (forms_of text)) (table_made (forms_of text)) limit
        → image_of (saved_bytes (file_for (map laid (objects_made (forms_of text))) (table_made (forms_of text)))) limit
        ≡ Ok (text_state (forms_of text)) }
{}
