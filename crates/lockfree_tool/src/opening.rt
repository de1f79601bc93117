//! The files that the arguments name, opened.

ghost use Rattle.std.specs.Prelude.{◌≡◌, ◌≢◌, ◌+◌, IfErr, IfNone, IfOk, IfSome, ℕ, List, [], ◌∷◌, count_by, length, map, string_bytes};
ghost use Rattle.lockfree_tool.specs.declared.failure.Failure.TheVariants.{Output};
ghost use Rattle.lockfree_tool.specs.Sources.{AreSourcesOf, HasNoSource, IsOpenFailure, IsSourceOf, given, is_input};

use crate::failure::Failure;
use crate::source::{STANDARD_INPUT, Source};
use audit::ReadFault;
use std::alloc::Global;
use std::io::{self, Read};

/// Opens the files that the arguments name.
pub trait OpenFiles {
    /// A file open for reading.
    type File: Read + Drop;

    /// Whether this is a file of this name, as far as it can be said.
    ghost is_file: { Self → List ℕ → Self.File → Type 0 };

    /// Whether the file of this name cannot be opened, as far as it can be said.
    ghost cannot_open: { Self → List ℕ → Type 0 };

    /// Opens the file of this name.
    fn open(&self, name: &str) -> io::Result<Self::File>
        ensures file { IfOk result (is_file self.now name.now) }
        ensures none { IfErr result (λ _. cannot_open self.now name.now) };

    /// Why the last file that could not be opened was refused, if it is known.
    fn last_refusal(&self) -> Option<io::Error>;
}

/// The source of this name: the standard input for `-`, once. `None` if it was given before, or if
/// the file cannot be opened.
pub fn open_source<F: OpenFiles, I: Read + Drop>(
    files: &F,
    name: &str,
    input: &mut Option<I>,
) -> Option<Source<F::File, I>>
    ensures of { IfSome result (IsSourceOf (F.is_file files.now) name.now) }
    ensures none { IfNone result
        (HasNoSource (F.cannot_open files.now) name.now (given input.old)) }
    ensures once { IfSome result
        (λ source. count_by is_input (source ∷ []) + given input.new ≡ given input.old) }
{
    if name == STANDARD_INPUT {
        return Some(Source::Input(input.take()?));
    }
    match files.open(name) {
        Ok(file) => Some(Source::File(file)),
        Err(_) => None,
    }
}

/// Opens the sources of these names, in order. `FileUnopened` has the number, from 1, of the first
/// that cannot be opened, or that names the standard input again. `File` has the number of the
/// first for which there is no memory.
pub fn open_sources<F: OpenFiles, I: Read + Drop>(
    alloc: Global,
    files: &F,
    names: &[String],
    input: Option<I>,
) -> Result<Vec<Source<F::File, I>>, Failure>
    ensures open { IfOk result (λ opened. length opened.items ≡ length names.now) }
    ensures sources { IfOk result (λ opened.
        AreSourcesOf (F.is_file files.now) (map string_bytes names.now) opened.items) }
    ensures fault { IfErr result (IsOpenFailure (F.is_file files.now) (F.cannot_open files.now)
        input (map string_bytes names.now)) }
    ensures unwritten { IfErr result (λ failure. failure ≢ Output) }
{
    let mut input = input;
    let mut opened = Vec::new(alloc);
    for (place, name) in names.iter().enumerate() {
        let number = place as u64 + 1;
        let source = open_source(files, name.as_str(), &mut input);
        let source = source.ok_or(Failure::FileUnopened(number))?;
        opened
            .push(source)
            .map_err(|_| Failure::File(number, ReadFault::NoMemory))?;
    }
    Ok(opened)
}
