//! The words by which contexts name the places of frames.
ghost use Rattle.std.specs.Prelude.{◌≡◌, ◌<◌, ◌/◌};
ghost use Rattle.cs_marriage.specs.Place.{link_word, names_place, page_named};

use cs_frame::FrameRef;
use cs_word::Oop;

/// The words of a page, as cs_frame has it.
const PAGE_WORDS: u32 = 4096;

/// The word by which a context names the place of a frame.
pub(crate) fn link_word(f: FrameRef) -> Oop
    requires page { f.page < 64 }
    requires at { f.at < 4096 }
    ensures { result.0 ≡ link_word f }
{
    Oop::from_natural(f.page * PAGE_WORDS + f.at)
}

/// Whether a word that stands in the sender slot of a context names the place of a frame. The context is married or
/// widowed then, and neither its sender nor its pc and its stack stand in its words. Any other word is the sender.
pub fn names_place(word: Oop) -> bool
    ensures { result ≡ names_place word.0 }
{
    word.0 % 2 == 1
}

/// The page of the place that a word names.
pub(crate) fn page_named(word: Oop) -> u32
    ensures { result ≡ page_named word.0 }
{
    word.0 / 2 / PAGE_WORDS
}
