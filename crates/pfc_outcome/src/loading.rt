//! The files of a run: its text, its input and its script.
ghost use Rattle.std.specs.Prelude.{◌≡◌, ◌≤◌, ◌⊎◌, List, length, IfOk, IsErrOf, IsSome, Some, None, option_copied};
ghost use Rattle.pfc_io.specs.Counts.{Rose};
ghost use Rattle.pfc_io.specs.declared.shelf.LoadFault.TheVariants.{Memory as NoMemory};
ghost use Rattle.pfc_io.specs.Files.{File};
ghost use Rattle.pfc_outcome.specs.Asked.{asked_of, plain_source};
ghost use Rattle.pfc_outcome.specs.Loaded.{AreLoaded};
ghost use Rattle.pfc_outcome.specs.Loading.{IsGiven, Lacks, LacksOne, long, missing, names_of, stream_limit, text_limit};
ghost use Rattle.pfc_outcome.specs.Outcomes.{file_of as name_of, names_by};

use crate::making::make_text;
use crate::options::{Options, Source};
use pfc_base::Text;
use pfc_io::{LoadFault, Shelf};
use std::alloc::Global;

/// The most bytes of a text.
const TEXT_LIMIT: usize = 262_144;

/// The most bytes of an input, and of a script.
const STREAM_LIMIT: usize = 1_048_576;

/// What was loaded: each is empty where no name is given.
#[derive(Drop)]
pub struct Loaded {
    /// The text of the program, at most 262,144 bytes.
    pub text: Text,
    /// The input, at most 1,048,576 bytes.
    pub input: Text,
    /// The script, at most 1,048,576 bytes.
    pub script: Text,
}

/// Loads what the options ask for: the text, the input and the script, in this order. A made text is not loaded, but made.
///
/// # Errors
///
/// Those of `load_files`.
pub fn load_asked<F: Shelf>(
    alloc: Global,
    options: &Options<'_>,
    shelf: &mut F,
) -> Result<Loaded, LoadFault>
    ensures within { IfOk result (λ loaded. length loaded.text ≤ text_limit) }
    ensures given { (files : List File) → F.told shelf.old ≡ Some files → IfOk result (λ loaded. AreLoaded files (asked_of options.now) loaded) }
    ensures kept { F.told shelf.new ≡ F.told shelf.old }

    ensures failed { IsErrOf result LoadFault.Failed → Rose (F.faults shelf.old) (F.faults shelf.new) }
    ensures missing { Lacks (F.told shelf.old) (names_by (asked_of options.now)) missing → IsErrOf result LoadFault.Failed ⊎ IsErrOf result NoMemory }
    ensures found { F.is_steady shelf.old → IsErrOf result LoadFault.Failed → Lacks (F.told shelf.old) (names_by (asked_of options.now)) missing }

    ensures too_long { IsErrOf result LoadFault.TooLong → Rose (F.longs shelf.old) (F.longs shelf.new) }
    ensures long { IsErrOf result LoadFault.TooLong → IsSome (F.told shelf.old) → Lacks (F.told shelf.old) (names_by (asked_of options.now)) long }
    ensures not_long { Lacks (F.told shelf.old) (names_by (asked_of options.now)) long
        → IsErrOf result LoadFault.TooLong ⊎ IsErrOf result LoadFault.Failed ⊎ IsErrOf result NoMemory }
{
    let loaded = load_files(
        alloc,
        file_of(options),
        options.input,
        options.script,
        shelf,
    )?;
    match options.source {
        Source::File(_) => Ok(loaded),
        Source::Made(size) => match make_text(alloc, size) {
            Ok(text) => Ok(Loaded {
                text: Text::from_vec(text),
                input: loaded.input,
                script: loaded.script,
            }),
            Err(_memory) => Err(LoadFault::Memory),
        },
    }
}

/// The name of the file of the text.
fn file_of<'a>(options: &Options<'a>) -> Option<&'a str>
    ensures { option_copied result ≡ name_of (plain_source options.now.source) }
{
    match options.source {
        Source::File(name) => Some(name),
        Source::Made(_) => None,
    }
}

/// Loads the text, the input and the script, in this order; the first load that is refused decides.
///
/// # Errors
///
/// `Failed` where the shelf failed or does not hold a name, `TooLong` where a file is above its length, `Memory` where memory was refused.
pub fn load_files<F: Shelf>(
    alloc: Global,
    file: Option<&str>,
    input: Option<&str>,
    script: Option<&str>,
    shelf: &mut F,
) -> Result<Loaded, LoadFault>
    ensures within { IfOk result (λ loaded.
        (length loaded.text ≤ text_limit) × (length loaded.input ≤ stream_limit) × (length loaded.script ≤ stream_limit)) }
    ensures given { IfOk result (λ loaded. IsGiven (F.told shelf.old) (option_copied file.entry) loaded.text
        × IsGiven (F.told shelf.old) (option_copied input.entry) loaded.input × IsGiven (F.told shelf.old) (option_copied script.entry) loaded.script) }
    ensures kept { F.told shelf.new ≡ F.told shelf.old }

    ensures failed { IsErrOf result LoadFault.Failed → Rose (F.faults shelf.old) (F.faults shelf.new) }
    ensures missing { Lacks (F.told shelf.old) (names_of (option_copied file.entry) (option_copied input.entry) (option_copied script.entry)) missing
        → IsErrOf result LoadFault.Failed ⊎ IsErrOf result NoMemory }
    ensures found { F.is_steady shelf.old → IsErrOf result LoadFault.Failed
        → Lacks (F.told shelf.old) (names_of (option_copied file.entry) (option_copied input.entry) (option_copied script.entry)) missing }

    ensures too_long { IsErrOf result LoadFault.TooLong → Rose (F.longs shelf.old) (F.longs shelf.new) }
    ensures long { IsErrOf result LoadFault.TooLong → IsSome (F.told shelf.old)
        → Lacks (F.told shelf.old) (names_of (option_copied file.entry) (option_copied input.entry) (option_copied script.entry)) long }
    ensures not_long { Lacks (F.told shelf.old) (names_of (option_copied file.entry) (option_copied input.entry) (option_copied script.entry)) long
        → IsErrOf result LoadFault.TooLong ⊎ IsErrOf result LoadFault.Failed ⊎ IsErrOf result NoMemory }
{
    let text = load_one(alloc, file, TEXT_LIMIT, shelf)?;
    let input = load_one(alloc, input, STREAM_LIMIT, shelf)?;
    let script = load_one(alloc, script, STREAM_LIMIT, shelf)?;
    Ok(Loaded {
        text,
        input,
        script,
    })
}

/// The bytes of the file of this name, at most `most` of them; none where there is no name.
fn load_one<F: Shelf>(
    alloc: Global,
    name: Option<&str>,
    most: usize,
    shelf: &mut F,
) -> Result<Text, LoadFault>
    ensures within { IfOk result (λ text. length text ≤ most) }
    ensures given { IfOk result (λ text. IsGiven (F.told shelf.old) (option_copied name.entry) text) }
    ensures kept { F.told shelf.new ≡ F.told shelf.old }

    ensures faults { F.faults shelf.old ≤ F.faults shelf.new }
    ensures failed { IsErrOf result LoadFault.Failed → Rose (F.faults shelf.old) (F.faults shelf.new) }
    ensures missing { LacksOne (F.told shelf.old) most (option_copied name.entry) (Some missing) → IsErrOf result LoadFault.Failed }
    ensures found { F.is_steady shelf.old → IsErrOf result LoadFault.Failed → LacksOne (F.told shelf.old) most (option_copied name.entry) (Some missing) }

    ensures longs { F.longs shelf.old ≤ F.longs shelf.new }
    ensures too_long { IsErrOf result LoadFault.TooLong → Rose (F.longs shelf.old) (F.longs shelf.new) }
    ensures long { IsErrOf result LoadFault.TooLong → IsSome (F.told shelf.old) → LacksOne (F.told shelf.old) most (option_copied name.entry) (Some long) }
    ensures not_long { LacksOne (F.told shelf.old) most (option_copied name.entry) (Some long)
        → IsErrOf result LoadFault.TooLong ⊎ IsErrOf result LoadFault.Failed ⊎ IsErrOf result NoMemory }
    ensures steady { F.is_steady shelf.old → F.is_steady shelf.new }
{
    match name {
        Some(name) => Ok(Text::from_vec(shelf.load(alloc, name, most)?)),
        None => Ok(Text::from_vec(Vec::new(alloc))),
    }
}
