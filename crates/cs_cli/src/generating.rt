//! The command that runs a generated image.

ghost use Rattle.std.specs.Prelude.{◌≡◌, ◌++◌, codes, decimal, length, IfErr, IfOk, IfSome, Some};
ghost use Rattle.cs_model.specs.Builder.{text_objects};
ghost use Rattle.cs_model.specs.BuilderFault.{forms_of, text_fault};
ghost use Rattle.cs_model.specs.Generator.{generated};
ghost use Rattle.cs_cli.specs.Answer.{GenAnswered, IsBuilt, generated_line};
ghost use Rattle.cs_cli.specs.Building.{text_fault_by};
ghost use Rattle.cs_cli.specs.Meaning.{line_by, options_by};
ghost use Rattle.cs_cli.specs.Possible.{IsInRange};

use crate::line::Line;
use crate::refusal::refuse_image;
use crate::running::open_and_run;
use crate::text_refusal::refuse_fault;
use arrayvec::ArrayString;
use cs_build::{BuildError, BuiltImage, build, gen_text};
use cs_image::load;
use cs_shelf::Sink;
use itoa::Buffer;
use std::alloc::Global;

/// How many steps a generated image runs.
const STEPS: u64 = 1_000_000;

/// Bytes that hold each first line of a generated image: 14 of its own words, and two numbers of at most 10 digits.
const LONGEST_GENERATED: usize = 34;

/// Generates the image of number `k`, runs it, and gives the status.
pub(crate) fn generate<K: Sink>(alloc: Global, k: u32, line: &Line<'_>, out: &mut K) -> u8
    requires { IsInRange (line_by line.now) }
    ensures { GenAnswered k (options_by line.now.options) (record {
      old = K.taken out.old;
      new = K.taken out.new;
      before = K.fault_count out.old;
      behind = K.fault_count out.new;
    }) result }
{
    match generated_image(alloc, k) {
        Ok(image) => run_generated(alloc, k, &image, line, out),
        Err(error) => refuse_fault(out, error),
    }
}

/// Generates a text, and builds an image from it.
fn generated_image(alloc: Global, k: u32) -> Result<BuiltImage, BuildError>
    ensures built { IfOk result (λ image. IsBuilt (generated k) image.bytes.items) }
    ensures count { IfOk result (λ image. image.objects ≡ length (text_objects (forms_of (generated k)))) }
    ensures fault { IfErr result (λ error. IfSome (text_fault_by error) (λ fault.
        text_fault (generated k) ≡ Some fault)) }
{
    let text = gen_text(alloc, k)?;
    let image = build(alloc, text.as_slice())?;
    Ok(image)
}

/// Loads the image of number `k`, and runs it.
fn run_generated<K: Sink>(
    alloc: Global,
    k: u32,
    image: &BuiltImage,
    line: &Line<'_>,
    out: &mut K,
) -> u8
    requires range { IsInRange (line_by line.now) }
    requires built { IsBuilt (generated k) image.now.bytes.items }
    requires count { image.now.objects ≡ length (text_objects (forms_of (generated k))) }
    ensures { GenAnswered k (options_by line.now.options) (record {
      old = K.taken out.old;
      new = K.taken out.new;
      before = K.fault_count out.old;
      behind = K.fault_count out.new;
    }) result }
{
    match load(alloc, image.bytes.as_slice(), line.options.heap) {
        Ok(loaded) => {
            let first = first_line(k, image.objects);
            open_and_run(
                alloc,
                loaded,
                line.options.page_count(),
                STEPS,
                first.as_str(),
                out,
            )
        }
        Err(error) => refuse_image(out, error),
    }
}

/// The first line that is printed of a generated image.
fn first_line(k: u32, objects: u32) -> ArrayString<LONGEST_GENERATED>
    ensures { result.bytes ≡ generated_line k objects }
{
    let mut text = ArrayString::new();
    text.push_str("gen ");
    text.push_str(Buffer::new().format(k));
    text.push_str(" objects=");
    text.push_str(Buffer::new().format(objects));
    text.push_str("\n");
    text
}
